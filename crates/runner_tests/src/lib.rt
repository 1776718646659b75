//! Tests of what is told of a run.

#![tactic(auto)]

#[cfg(test)]
mod tests {
    use runner::memory::Memory;
    use runner::on_label::run_text;
    use runner::on_recorder::record_text;
    use std::alloc::Global;
    use std::process::Abort;
    use std::test::Fail;

    // A file whose main has these six bytes of code.
    fn file(code: [u8; 6]) -> [u8; 36] {
        let mut file =
            *b"\x65\x4A\x56\x4D\x10\x02\x00\x00\x00\x22\x01\x00\x00\x00\x00\x00\x17\x00\x00\x00\x00\x00\x1D\x00\x00\x00\x00\x00\x00\x02\x00\x06\0m\0A";
        for (i, byte) in code.iter().enumerate() {
            file[23 + i] = *byte;
        }
        file
    }

    // What is told of the file on a label.
    fn told(
        rt: &impl Abort,
        heap: Global,
        file: &[u8],
        keys: &[u8],
        expected: &str,
    ) -> Result<(), Fail> {
        let mut memory = Memory::new();
        let text = run_text(heap, file, keys, &mut memory)?;
        assert_eq!(rt; text.as_str(), expected);
        Ok(())
    }

    // Some words, so many times.
    fn repeated(heap: Global, words: &str, count: usize) -> Result<String, Fail> {
        let mut text = String::new(heap);
        for _ in 0..count {
            text.push_str(words)?;
        }
        Ok(text)
    }

    // IN, OUT, a jump back, and a return that is not reached.
    const ECHO: [u8; 6] = [0xF0, 0xF1, 0xA7, 0xFF, 0xFE, 0xB1];

    #[test]
    fn echo_until_there_is_no_room(rt: HostRuntime) -> Result<(), Fail> {
        let heap = rt.alloc();
        let file = file(ECHO);
        let units = repeated(heap, " 4142", 96)?;
        let expected = format!(in heap; "ejvm 1\nstop full\ncount 289\nunits{units}\n")?;
        let keys = repeated(heap, "AB", 97)?;
        told(&rt, heap, &file, keys.as_bytes(), expected.as_str())?;
        let bytes = repeated(heap, " 41 42", 96)?;
        let expected = format!(in heap; "ejvm 1\nstop full\ncount 289\nmemory 01 00 C0{bytes}\n")?;
        let mut memory = Memory::new();
        let text = record_text(heap, &file, keys.as_bytes(), &mut memory)?;
        assert_eq!(rt; text.as_str(), expected.as_str());
        Ok(())
    }

    #[test]
    fn odd_key_byte(rt: HostRuntime) -> Result<(), Fail> {
        let heap = rt.alloc();
        let file = file(ECHO);
        told(
            &rt,
            heap,
            &file,
            &[1, 2, 3],
            "ejvm 1\nstop waiting\ncount 3\nunits 0102\n",
        )
    }

    #[test]
    fn at_most_256_keys(rt: HostRuntime) -> Result<(), Fail> {
        let heap = rt.alloc();
        // IN, POP and a jump back
        let file = file([0xF0, 0x57, 0xA7, 0xFF, 0xFE, 0xB1]);
        told(
            &rt,
            heap,
            &file,
            &[7; 600],
            "ejvm 1\nstop waiting\ncount 768\nunits\n",
        )?;
        let zeros = repeated(heap, " 00", 192)?;
        let expected = format!(in heap;
            "ejvm 1\nstop waiting\ncount 768\nmemory 01 00 00{zeros}\n"
        )?;
        let mut memory = Memory::new();
        let text = record_text(heap, &file, &[7; 600], &mut memory)?;
        assert_eq!(rt; text.as_str(), expected.as_str());
        Ok(())
    }

    #[test]
    fn fuel_and_cells(rt: HostRuntime) -> Result<(), Fail> {
        let heap = rt.alloc();
        // a jump to itself
        told(
            &rt,
            heap,
            &file([0xA7, 0, 0, 0, 0, 0xB1]),
            &[],
            "ejvm 1\nstop spent\ncount 10000\nunits\n",
        )?;
        // a call of itself: 682 frames of three cells fit, main's among them
        told(
            &rt,
            heap,
            &file([0xB6, 0, 0, 0, 0, 0xB1]),
            &[],
            "ejvm 1\nstop deep\ncount 681\nunits\n",
        )
    }

    #[test]
    fn refusals_and_large_files(rt: HostRuntime) -> Result<(), Fail> {
        let heap = rt.alloc();
        told(&rt, heap, &[], &[], "ejvm 1\nrefused 2 0\n")?;
        told(&rt, heap, &[0; 8_192], &[], "ejvm 1\nrefused 3 0\n")?;
        told(&rt, heap, &[0; 8_193], &[], "large\n")?;
        let mut memory = Memory::new();
        let text = record_text(heap, &[0; 8_193], &[], &mut memory)?;
        assert_eq!(rt; text.as_str(), "large\n");
        let text = record_text(heap, &[], &[], &mut memory)?;
        assert_eq!(rt; text.as_str(), "ejvm 1\nrefused 2 0\n");
        Ok(())
    }
}
