//! Tests of the reports.

#![tactic(auto)]

#[cfg(test)]
mod tests {
    use machine::stop::{End, Stop};
    use refusals::{Refusal, Rule};
    use reports::report::{record_report, refusal_report, run_report};
    use std::alloc::Global;
    use std::process::Abort;
    use std::test::Fail;

    // The report of a go that did nothing and wrote nothing, by the words of its stop.
    fn stopped(rt: &impl Abort, heap: Global, stop: Stop, words: &str) -> Result<(), Fail> {
        let text = run_report(heap, stop, 0, &[])?;
        let expected = format!(in heap; "ejvm 1\nstop {words}\ncount 0\nunits\n")?;
        assert_eq!(rt; text.as_str(), expected.as_str());
        Ok(())
    }

    #[test]
    fn a_unit(rt: HostRuntime) -> Result<(), Fail> {
        let text = run_report(rt.alloc(), Stop::Ended(End::Plain), 3, &[0x41])?;
        assert_eq!(rt; text.as_str(), "ejvm 1\nstop return\ncount 3\nunits 0041\n");
        Ok(())
    }

    #[test]
    fn digits(rt: HostRuntime) -> Result<(), Fail> {
        let text = run_report(
            rt.alloc(),
            Stop::Spent,
            4_294_967_295,
            &[0, 10, 159, 2_561, 51_966, 65_535],
        )?;
        assert_eq!(rt;
            text.as_str(),
            "ejvm 1\nstop spent\ncount 4294967295\nunits 0000 000A 009F 0A01 CAFE FFFF\n"
        );
        Ok(())
    }

    #[test]
    fn ends(rt: HostRuntime) -> Result<(), Fail> {
        let heap = rt.alloc();
        stopped(&rt, heap, Stop::Ended(End::Value(0)), "value 0")?;
        stopped(&rt, heap, Stop::Ended(End::Value(32_767)), "value 32767")?;
        stopped(&rt, heap, Stop::Ended(End::Value(32_768)), "value -32768")?;
        stopped(&rt, heap, Stop::Ended(End::Value(65_531)), "value -5")?;
        stopped(&rt, heap, Stop::Ended(End::Halt), "halt")?;
        stopped(&rt, heap, Stop::Ended(End::Error(0)), "error 0")?;
        stopped(&rt, heap, Stop::Ended(End::Error(255)), "error 255")
    }

    #[test]
    fn other_stops(rt: HostRuntime) -> Result<(), Fail> {
        let heap = rt.alloc();
        stopped(&rt, heap, Stop::NoUnit, "waiting")?;
        stopped(&rt, heap, Stop::NoRoom, "full")?;
        stopped(&rt, heap, Stop::StackFull, "deep")
    }

    #[test]
    fn memory(rt: HostRuntime) -> Result<(), Fail> {
        let text = record_report(
            rt.alloc(),
            Stop::NoRoom,
            12,
            &[1, 0, 4, 0, 0x41, 0xFF, 0xA0],
        )?;
        assert_eq!(rt;
            text.as_str(),
            "ejvm 1\nstop full\ncount 12\nmemory 01 00 04 00 41 FF A0\n"
        );
        let none = record_report(rt.alloc(), Stop::Ended(End::Halt), 1, &[])?;
        assert_eq!(rt; none.as_str(), "ejvm 1\nstop halt\ncount 1\nmemory\n");
        Ok(())
    }

    #[test]
    fn refusals(rt: HostRuntime) -> Result<(), Fail> {
        let text = refusal_report(
            rt.alloc(),
            Refusal {
                rule: Rule::NoNumbering,
                place: 23,
            },
        )?;
        assert_eq!(rt; text.as_str(), "ejvm 1\nrefused 17 23\n");
        let long = refusal_report(
            rt.alloc(),
            Refusal {
                rule: Rule::HeaderCut,
                place: 0,
            },
        )?;
        assert_eq!(rt; long.as_str(), "ejvm 1\nrefused 2 0\n");
        Ok(())
    }
}
