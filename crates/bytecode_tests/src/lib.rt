//! Tests of the decoding and of the rules of the code.

#![tactic(auto)]

#[cfg(test)]
mod tests {
    use bytecode::decode::decode;
    use bytecode::instruction::Instruction;
    use bytecode::rules::code_sound;
    use format::reader::read;
    use refusals::{Refusal, Rule};
    use std::test::Fail;

    // A file with one method, whose code has the three bytes from 23 on: IN, OUT and RETURN.
    #[rattlefmt::skip]
    const FILE: [u8; 39] = [
        0x65, 0x4A, 0x56, 0x4D, 0x10, 2, 0, 0, 0, 37, 1, 0, 0,
        0, 0, 0, 23, 0, 0, 0, 0, 0, 26,
        0xF0, 0xF1, 0xB1,
        8, 0, 3, 0, 0x6D, 0, 0x61, 0, 0x69, 0, 0x6E,
        0, 0x41,
    ];

    // What is said of the file with other code.
    fn checked(first: u8, second: u8, third: u8) -> Result<(), Refusal> {
        let mut file = FILE;
        file[23] = first;
        file[24] = second;
        file[25] = third;
        read(&file)?;
        code_sound(&file)
    }

    fn refused(rule: Rule, place: usize) -> Result<(), Refusal> {
        Err(Refusal { rule, place })
    }

    #[test]
    fn takes_instructions_apart() -> Result<(), Fail> {
        let Some((Instruction::Swap, [0x57])) = decode(&[0x5F, 0x57]) else {
            return Err(Fail::new("SWAP"));
        };
        let Some((Instruction::Err(9), [])) = decode(&[0xF2, 9]) else {
            return Err(Fail::new("ERR"));
        };
        let Some((Instruction::Goto(0xFFFD), [0x57])) = decode(&[0xA7, 0xFF, 0xFD, 0x57]) else {
            return Err(Fail::new("GOTO"));
        };
        let Some((Instruction::Iinc(5, 0x0102), [0xB1, 0xB1])) = decode(&[
            0x84, 5, 1, 2, 0xB1, 0xB1,
        ]) else {
            return Err(Fail::new("IINC"));
        };
        Ok(())
    }

    #[test]
    fn refuses_cut_and_unknown_instructions(rt: HostRuntime) {
        assert!(rt; decode(&[]).is_none());
        assert!(rt; decode(&[0x01, 0, 0, 0]).is_none());
        assert!(rt; decode(&[0x15]).is_none());
        assert!(rt; decode(&[0x10, 1]).is_none());
        assert!(rt; decode(&[0x84, 1, 2]).is_none());
    }

    #[test]
    fn names_the_rule_and_the_place(rt: HostRuntime) {
        assert_eq!(rt; checked(0xF0, 0xF1, 0xB1), Ok(()));
        assert_eq!(rt;
            checked(0xF0, 0x01, 0xB1),
            refused(Rule::BadInstruction, 24)
        );
        assert_eq!(rt;
            checked(0xF0, 0xB1, 0x84),
            refused(Rule::BadInstruction, 25)
        );
        assert_eq!(rt; checked(0xFA, 0x03, 0xB1), refused(Rule::BadIndex, 23));
        assert_eq!(rt; checked(0xA7, 0x00, 0x01), refused(Rule::BadTarget, 23));
        assert_eq!(rt; checked(0xF0, 0xF1, 0x00), refused(Rule::MixedReturns, 23));
        assert_eq!(rt; checked(0xF0, 0xAC, 0xB1), refused(Rule::MixedReturns, 23));
    }

    #[test]
    fn seeks_each_rule_before_the_next(rt: HostRuntime) {
        assert_eq!(rt;
            checked(0xFA, 0x03, 0x01),
            refused(Rule::BadInstruction, 25)
        );
        assert_eq!(rt; checked(0xF0, 0x12, 0x00), refused(Rule::BadIndex, 24));
    }
}
