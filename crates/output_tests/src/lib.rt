//! Tests of what OUT writes.

#![tactic(auto)]

#[cfg(test)]
mod tests {
    use host::label::Label;
    use host::{Host, NO_ROOM};
    use output::mode::Mode;
    use output::modes::text;
    use std::process::Abort;

    // Mode 0 writes the pattern, mode 1 this number and mode 2 this level.
    fn writes(rt: &impl Abort, value: u16, number: &[u8], level: &[u8]) {
        assert!(rt; text(0, value).units() == [value].as_slice());
        shows(rt, 1, value, number);
        shows(rt, 2, value, level);
        // any other mode writes as mode 2 does
        shows(rt, 255, value, level);
    }

    fn shows(rt: &impl Abort, mode: u8, value: u16, expected: &[u8]) {
        let text = text(mode, value);
        assert_eq!(rt; text.count() as usize, expected.len());
        assert_eq!(rt; text.units().len(), expected.len());
        for (unit, byte) in text.units().iter().zip(expected) {
            assert_eq!(rt; *unit, *byte as u16);
        }
    }

    #[test]
    fn each_mode_writes_its_text(rt: HostRuntime) {
        writes(&rt, 0, b"0", b"0");
        writes(&rt, 5, b"5", b"0");
        writes(&rt, 9, b"9", b"0");
        writes(&rt, 10, b"10", b"1");
        writes(&rt, 3505, b"3505", b"350");
        writes(&rt, 32767, b"32767", b"3276");
    }

    #[test]
    fn modes_have_the_numbers_0_to_2(rt: HostRuntime) {
        assert_eq!(rt; Mode::from(0), Mode::Pattern);
        assert_eq!(rt; Mode::from(1), Mode::Decimal);
        assert_eq!(rt; Mode::from(2), Mode::Tenth);
        assert_eq!(rt; Mode::from(255), Mode::Tenth);
        assert!(rt; Mode::from(1).text(32769).units() == [45, 51, 50, 55, 54, 55].as_slice());
    }

    #[test]
    fn patterns_from_32768_on_are_below_0(rt: HostRuntime) {
        writes(&rt, 65535, b"-1", b"0");
        writes(&rt, 65531, b"-5", b"0");
        writes(&rt, 65527, b"-9", b"0");
        writes(&rt, 65526, b"-10", b"-1");
        writes(&rt, 32769, b"-32767", b"-3276");
        writes(&rt, 32768, b"-32768", b"-3276");
    }

    #[test]
    fn label_takes_a_text_that_just_fits(rt: HostRuntime) {
        let mut slots = [0; 1];
        let mut label = Label::new(&mut slots);
        for _ in 0..90 {
            assert_eq!(rt; label.put(46), Ok(()));
        }
        let text = text(1, 32768);
        assert_eq!(rt; label.room(), text.count());
        text.put(&mut label);
        assert_eq!(rt; label.room(), 0);
        assert_eq!(rt; label.put(46), Err(NO_ROOM));
        assert!(rt; label.shown().ends_with(&[46, 45, 51, 50, 55, 54, 56]));
    }
}
