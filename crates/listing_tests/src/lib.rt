//! Tests of the listing.

#![tactic(auto)]

#[cfg(test)]
mod tests {
    use listing::report::listing;
    use std::test::Fail;

    const PARTS: [u8; 69] =
        *b"\x65\x4A\x56\x4D\x10\x04\x00\x00\x00\x41\x02\x01\x02\x00\x00\x00\x23\x00\x01\x00\x00\x00\x29\x00\x00\x00\x26\x01\x02\x00\x00\x00\x2E\xFF\xFB\xF0\xF1\xB1\x15\x00\xAC\x02\x00\x03\0m\x02\x00\x03\0f\x00\x00\x00\x0A\0~\0\n\0\\\xD8\x3D\0\x7F\0A\0 ";

    const LISTED: &str =
        "program A \nmethod 0 m parameters 0 locals 1 code 35 size 3 peak 1\nplace 35 number 0 IN\nplace 36 number 1 OUT\nplace 37 number 0 RETURN\nmethod 1 f parameters 1 locals 2 code 38 size 3 peak 1\nplace 38 number 0 ILOAD 0\nplace 40 number 1 IRETURN\nconstant 0 -5\nmessage 0 \nmessage 1 ~\\u000A\\u005C\\uD83D\\u007F\n";

    // A jump over one instruction.
    const SKIPPED: [u8; 35] =
        *b"\x65\x4A\x56\x4D\x10\x02\x00\x00\x00\x21\x01\x00\x00\x00\x00\x00\x17\x00\x00\x00\x00\x00\x1C\xA7\x00\x04\x00\xB1\x02\x00\x05\0m\0A";

    // It takes a value from an empty operand stack.
    const EMPTY: [u8; 32] =
        *b"\x65\x4A\x56\x4D\x10\x02\x00\x00\x00\x1E\x01\x00\x00\x00\x00\x00\x17\x00\x00\x00\x00\x00\x19\x57\xB1\x02\x00\x02\0m\0A";

    #[test]
    fn parts(rt: HostRuntime) -> Result<(), Fail> {
        let text = listing(rt.alloc(), &PARTS)?;
        assert_eq!(rt; text.as_str(), LISTED);
        Ok(())
    }

    #[test]
    fn place_not_reached(rt: HostRuntime) -> Result<(), Fail> {
        let text = listing(rt.alloc(), &SKIPPED)?;
        assert_eq!(rt;
            text.as_str(),
            "program A\nmethod 0 m parameters 0 locals 0 code 23 size 5 peak 0\nplace 23 number 0 GOTO 4\nplace 26 blank NOP\nplace 27 number 0 RETURN\n"
        );
        Ok(())
    }

    #[test]
    fn no_numbering(rt: HostRuntime) -> Result<(), Fail> {
        let text = listing(rt.alloc(), &EMPTY)?;
        assert_eq!(rt;
            text.as_str(),
            "refused 17 23\nno numbering of a method keeps the rule\n"
        );
        Ok(())
    }

    #[test]
    fn refusals(rt: HostRuntime) -> Result<(), Fail> {
        let empty = listing(rt.alloc(), b"")?;
        assert_eq!(rt;
            empty.as_str(),
            "refused 2 0\nthe file is shorter than its 13 header bytes\n"
        );
        let cut = listing(rt.alloc(), &PARTS[0..68])?;
        assert_eq!(rt;
            cut.as_str(),
            "refused 11 5\nthe program name is odd, empty, not right after the messages or not at the end\n"
        );
        Ok(())
    }
}
