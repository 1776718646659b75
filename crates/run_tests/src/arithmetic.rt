//! Instructions on operands, constants and variables.
//! Patterns are written in hexadecimal where they pass 32,767: 0x8000 is -32,768 and 0xFFFF is -1.
use crate::opcodes::*;
use crate::programs::{Method, Program};
use std::test::Fail;

/// Two numbers in the order in which they are pushed, the instruction on them, and the value that it leaves.
const OF_TWO: [(u16, u16, u8, u16); 20] = [
    (7, 9, IADD, 16),
    (32_767, 1, IADD, 0x8000),
    (1, 32_767, IADD, 0x8000),
    (0x8000, 0xFFFF, IADD, 32_767),
    (0x8000, 0x8000, IADD, 0),
    (32_767, 32_767, IADD, 0xFFFE),
    (0xFFFF, 1, IADD, 0),
    // the second less the top one
    (9, 7, ISUB, 2),
    (7, 9, ISUB, 0xFFFE),
    (5, 5, ISUB, 0),
    (0x8000, 1, ISUB, 32_767),
    (32_767, 0xFFFF, ISUB, 0x8000),
    (0, 0x8000, ISUB, 0x8000),
    (0xFFFF, 0x8000, ISUB, 32_767),
    (0x0FF0, 0x00FF, IAND, 0x00F0),
    (0xFFFF, 0x8001, IAND, 0x8001),
    (0x5555, 0xAAAA, IAND, 0),
    (0x0FF0, 0x00FF, IOR, 0x0FFF),
    (0x8000, 0x0001, IOR, 0x8001),
    (0x5555, 0xAAAA, IOR, 0xFFFF),
];

/// Code of a main that has two variables, the value that it ends with, and how many instructions that takes.
const OF_MAIN: [(&[&[u8]], u16, u32); 22] = [
    (&[&[BIPUSH, 0x80, 1], &[IRETURN]], 0x8001, 2),
    (
        &[&[BIPUSH, 0, 1], &[BIPUSH, 0, 2], &[POP], &[IRETURN]],
        1,
        4,
    ),
    (
        &[&[BIPUSH, 0, 1], &[POP], &[BIPUSH, 0, 2], &[IRETURN]],
        2,
        4,
    ),
    (&[&[BIPUSH, 0, 5], &[DUP], &[IADD], &[IRETURN]], 10, 4),
    (&[&[BIPUSH, 0, 5], &[DUP], &[ISUB], &[IRETURN]], 0, 4),
    // 1 is the top after SWAP
    (
        &[
            &[BIPUSH, 0, 1],
            &[BIPUSH, 0, 2],
            &[SWAP],
            &[ISUB],
            &[IRETURN],
        ],
        1,
        5,
    ),
    (
        &[
            &[BIPUSH, 0, 1],
            &[BIPUSH, 0, 2],
            &[SWAP],
            &[POP],
            &[IRETURN],
        ],
        2,
        5,
    ),
    // the third value stays: 9 - (4 - 3)
    (
        &[
            &[BIPUSH, 0, 9],
            &[BIPUSH, 0, 3],
            &[BIPUSH, 0, 4],
            &[SWAP],
            &[ISUB],
            &[ISUB],
            &[IRETURN],
        ],
        8,
        7,
    ),
    (&[&[NOP], &[BIPUSH, 0, 6], &[NOP], &[IRETURN]], 6, 4),
    (&[&[WIDE], &[BIPUSH, 0, 6], &[WIDE], &[IRETURN]], 6, 4),
    // WIDE changes nothing of what follows
    (&[&[WIDE], &[ILOAD, 0], &[IRETURN]], 0, 3),
    // variables are 0 at first, and keep what is stored
    (&[&[ILOAD, 1], &[IRETURN]], 0, 2),
    (
        &[&[BIPUSH, 0, 5], &[ISTORE, 0], &[ILOAD, 0], &[IRETURN]],
        5,
        4,
    ),
    (
        &[&[BIPUSH, 0, 5], &[ISTORE, 0], &[ILOAD, 1], &[IRETURN]],
        0,
        4,
    ),
    (
        &[
            &[BIPUSH, 0, 5],
            &[DUP],
            &[ISTORE, 1],
            &[ILOAD, 0],
            &[ISUB],
            &[ILOAD, 1],
            &[IADD],
            &[IRETURN],
        ],
        10,
        8,
    ),
    (
        &[
            &[BIPUSH, 0, 5],
            &[ISTORE, 0],
            &[BIPUSH, 0, 9],
            &[ISTORE, 0],
            &[ILOAD, 0],
            &[IRETURN],
        ],
        9,
        6,
    ),
    (&[&[IINC, 0, 0, 3], &[ILOAD, 0], &[IRETURN]], 3, 3),
    (
        &[&[IINC, 0, 0xFF, 0xFA], &[ILOAD, 0], &[IRETURN]],
        0xFFFA,
        3,
    ),
    (&[&[IINC, 1, 0, 3], &[ILOAD, 0], &[IRETURN]], 0, 3),
    // 32,767 + 1, and -32,768 - 1
    (
        &[
            &[IINC, 1, 0x7F, 0xFF],
            &[IINC, 1, 0, 1],
            &[ILOAD, 1],
            &[IRETURN],
        ],
        0x8000,
        4,
    ),
    (
        &[
            &[IINC, 1, 0x80, 0],
            &[IINC, 1, 0xFF, 0xFF],
            &[ILOAD, 1],
            &[IRETURN],
        ],
        32_767,
        4,
    ),
    // the operands stay
    (
        &[
            &[BIPUSH, 0, 9],
            &[IINC, 1, 0, 1],
            &[ILOAD, 1],
            &[ISUB],
            &[IRETURN],
        ],
        8,
        5,
    ),
];

#[test]
fn two_numbers(rt: HostRuntime) -> Result<(), Fail> {
    for (u, v, opcode, value) in OF_TWO {
        let [a, b] = u.to_be_bytes();
        let [c, d] = v.to_be_bytes();
        let code: [&[u8]; 4] = [&[BIPUSH, a, b], &[BIPUSH, c, d], &[opcode], &[IRETURN]];
        Program::of_main(rt.alloc(), 0, &code)?.gives(&rt, value, 4)?;
    }
    Ok(())
}

#[test]
fn operands_and_variables(rt: HostRuntime) -> Result<(), Fail> {
    for (code, value, count) in OF_MAIN {
        Program::of_main(rt.alloc(), 2, code)?.gives(&rt, value, count)?;
    }
    Ok(())
}

#[test]
fn the_last_of_255_variables(rt: HostRuntime) -> Result<(), Fail> {
    let code: [&[u8]; 4] = [&[BIPUSH, 1, 2], &[ISTORE, 254], &[ILOAD, 254], &[IRETURN]];
    Program::of_main(rt.alloc(), 255, &code)?.gives(&rt, 258, 4)
}

#[test]
fn constants(rt: HostRuntime) -> Result<(), Fail> {
    for (index, value) in [(0, 0x1234), (1, 0xFEDC), (2, 0x8000)] {
        let main = Method {
            parameters: 0,
            locals: 0,
            code: &[&[LDC, index], &[IRETURN]],
        };
        Program::new(rt.alloc(), &[main], &[0x1234, 0xFEDC, 0x8000], 0)?.gives(&rt, value, 2)?;
    }
    let main = Method {
        parameters: 0,
        locals: 0,
        code: &[&[LDC, 1], &[LDC, 0], &[ISUB], &[IRETURN]],
    };
    // 3 - 10 is -7
    Program::new(rt.alloc(), &[main], &[10, 3], 0)?.gives(&rt, 0xFFF9, 4)
}
