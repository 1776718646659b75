//! Jumps forward and back. A distance counts from the jump's own opcode; the addresses in the comments count from main's code.
use crate::opcodes::*;
use crate::programs::Program;
use std::test::Fail;

/// A value, a jump on it, and what main ends with: 2 if it jumps, 1 if it does not.
const ON_ONE: [(u16, u8, u16); 10] = [
    (0, IFEQ, 2),
    (1, IFEQ, 1),
    (0x0100, IFEQ, 1),
    (0x8000, IFEQ, 1),
    (0xFFFF, IFLT, 2),
    (0x8000, IFLT, 2),
    (0x80FF, IFLT, 2),
    (0, IFLT, 1),
    (0x00FF, IFLT, 1),
    (32_767, IFLT, 1),
];

/// The same of two values and IF_ICMPEQ.
const ON_TWO: [(u16, u16, u16); 6] = [
    (5, 5, 2),
    (5, 6, 1),
    (0x0105, 0x0005, 1),
    (0x8000, 0x8000, 2),
    (0x8000, 0, 1),
    (0, 0xFFFF, 1),
];

/// Main's code, the value that it ends with, and how many instructions that takes. It has two variables.
const WAYS: [(&[&[u8]], u16, u32); 9] = [
    // 0 to 4
    (&[&[GOTO, 0, 4], &[HALT], &[BIPUSH, 0, 9], &[IRETURN]], 9, 3),
    // 0 to 7, 7 to 3
    (
        &[
            &[GOTO, 0, 7],
            &[BIPUSH, 0, 9],
            &[IRETURN],
            &[GOTO, 0xFF, 0xFC],
        ],
        9,
        4,
    ),
    // 0 to 303, over 300 NOP
    (
        &[
            &[GOTO, 0x01, 0x2F],
            &[NOP; 300],
            &[BIPUSH, 0, 9],
            &[IRETURN],
        ],
        9,
        3,
    ),
    // 0 to 307, 307 to 3
    (
        &[
            &[GOTO, 0x01, 0x33],
            &[BIPUSH, 0, 9],
            &[IRETURN],
            &[NOP; 300],
            &[GOTO, 0xFE, 0xD0],
        ],
        9,
        4,
    ),
    // variable 0 goes 3, 2, 1, 0: three turns from 5 to 15, each but the last with GOTO at 18
    (
        &[
            &[BIPUSH, 0, 3],
            &[ISTORE, 0],
            &[IINC, 1, 0, 10],
            &[IINC, 0, 0xFF, 0xFF],
            &[ILOAD, 0],
            &[IFEQ, 0, 6],
            &[GOTO, 0xFF, 0xF3],
            &[ILOAD, 1],
            &[IRETURN],
        ],
        30,
        18,
    ),
    // 6 to 0 once: the value is 0 before the first increment, 1 before the second
    (
        &[
            &[ILOAD, 0],
            &[IINC, 0, 0, 1],
            &[IFEQ, 0xFF, 0xFA],
            &[ILOAD, 0],
            &[IRETURN],
        ],
        2,
        8,
    ),
    // 10 to 4 once: variable 0 goes -2, -1, 0
    (
        &[
            &[IINC, 0, 0xFF, 0xFE],
            &[IINC, 0, 0, 1],
            &[ILOAD, 0],
            &[IFLT, 0xFF, 0xFA],
            &[ILOAD, 0],
            &[IRETURN],
        ],
        0,
        9,
    ),
    // 9 to 0 once: variable 0 goes 0, 1, 2
    (
        &[
            &[IINC, 0, 0, 1],
            &[ILOAD, 0],
            &[BIPUSH, 0, 1],
            &[ICMPEQ, 0xFF, 0xF7],
            &[ILOAD, 0],
            &[IRETURN],
        ],
        2,
        10,
    ),
    // a jump to the next instruction
    (&[&[GOTO, 0, 3], &[BIPUSH, 0, 9], &[IRETURN]], 9, 3),
];

#[test]
fn on_one_value(rt: HostRuntime) -> Result<(), Fail> {
    for (value, opcode, way) in ON_ONE {
        let [high, low] = value.to_be_bytes();
        // 3 to 10
        let code: [&[u8]; 6] = [
            &[BIPUSH, high, low],
            &[opcode, 0, 7],
            &[BIPUSH, 0, 1],
            &[IRETURN],
            &[BIPUSH, 0, 2],
            &[IRETURN],
        ];
        Program::of_main(rt.alloc(), 0, &code)?.gives(&rt, way, 4)?;
    }
    Ok(())
}

#[test]
fn on_two_values(rt: HostRuntime) -> Result<(), Fail> {
    for (u, v, way) in ON_TWO {
        let [a, b] = u.to_be_bytes();
        let [c, d] = v.to_be_bytes();
        // 6 to 13
        let code: [&[u8]; 7] = [
            &[BIPUSH, a, b],
            &[BIPUSH, c, d],
            &[ICMPEQ, 0, 7],
            &[BIPUSH, 0, 1],
            &[IRETURN],
            &[BIPUSH, 0, 2],
            &[IRETURN],
        ];
        Program::of_main(rt.alloc(), 0, &code)?.gives(&rt, way, 5)?;
    }
    Ok(())
}

#[test]
fn ways(rt: HostRuntime) -> Result<(), Fail> {
    for (code, value, count) in WAYS {
        Program::of_main(rt.alloc(), 2, code)?.gives(&rt, value, count)?;
    }
    Ok(())
}
