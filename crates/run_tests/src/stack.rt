//! The cells: what they hold, and how many a run needs.
use crate::opcodes::*;
use crate::programs::{Method, Program};
use host::recorder::Recorder;
use machine::stop::{End, Stop};
use std::test::Fail;

/// Main that calls itself for ever: its frame has three cells.
const AGAIN: [&[u8]; 2] = [&[CALL, 0], &[RETURN]];

/// So many cells, and the calls of AGAIN that fit on them beside main.
const DEPTHS: [(usize, u32); 9] = [
    (3, 0),
    (5, 0),
    (6, 1),
    (8, 1),
    (9, 2),
    (299, 98),
    (300, 99),
    (65_534, 21_843),
    (65_535, 21_844),
];

#[test]
fn recursion_fills_the_cells(rt: HostRuntime) -> Result<(), Fail> {
    let program = Program::of_main(rt.alloc(), 0, &AGAIN)?;
    for (cells, calls) in DEPTHS {
        let mut stack = vec![in rt.alloc(); 7u16; cells]?;
        let mut host = Recorder::open(&mut [], &[]);
        program.makes(
            &rt,
            stack.as_mut_slice(),
            &mut host,
            &[
                (99_999, Stop::StackFull, calls),
                (99_999, Stop::StackFull, 0),
                (0, Stop::Spent, 0),
            ],
        )?;
    }
    Ok(())
}

// Of 70,000 cells 65,535 are used.
#[test]
fn cells_past_65535_are_not_used(rt: HostRuntime) -> Result<(), Fail> {
    let program = Program::of_main(rt.alloc(), 0, &AGAIN)?;
    let mut stack = vec![in rt.alloc(); 7u16; 70_000]?;
    let mut host = Recorder::open(&mut [], &[]);
    program.makes(
        &rt,
        stack.as_mut_slice(),
        &mut host,
        &[(99_999, Stop::StackFull, 21_844)],
    )?;
    for cell in stack.as_slice().iter().skip(65_535) {
        assert_eq!(rt; *cell, 7);
    }
    Ok(())
}

/// So many cells, and what a method with a parameter, two locals and the peak 1 does on them that calls itself for ever.
/// Main needs 4 cells. The frames of the method begin at 3, 9, 15, .. and end at most at 10, 16, 22, ..
const NEEDS: [(usize, u32); 7] = [(3, 0), (4, 1), (9, 1), (10, 3), (15, 3), (16, 5), (22, 7)];

#[test]
fn a_frame_needs_its_peak(rt: HostRuntime) -> Result<(), Fail> {
    let main = Method {
        parameters: 0,
        locals: 0,
        code: &[&[BIPUSH, 0, 5], &[CALL, 1], &[RETURN]],
    };
    let again = Method {
        parameters: 1,
        locals: 2,
        code: &[&[ILOAD, 0], &[CALL, 1], &[RETURN]],
    };
    let program = Program::of_methods(rt.alloc(), &[main, again])?;
    for (cells, count) in NEEDS {
        let mut stack = vec![in rt.alloc(); 7u16; cells]?;
        let mut host = Recorder::open(&mut [], &[]);
        program.makes(
            &rt,
            stack.as_mut_slice(),
            &mut host,
            &[(99, Stop::StackFull, count), (1, Stop::StackFull, 0)],
        )?;
    }
    Ok(())
}

// Main with two locals and the peak 1 needs 6 cells. On fewer no cell is touched and no unit is taken.
#[test]
fn main_that_does_not_fit(rt: HostRuntime) -> Result<(), Fail> {
    let code: [&[u8]; 2] = [&[IN], &[IRETURN]];
    let program = Program::of_main(rt.alloc(), 2, &code)?;
    let never = [
        (0, Stop::Spent, 0),
        (1, Stop::StackFull, 0),
        (99, Stop::StackFull, 0),
        (0, Stop::Spent, 0),
    ];
    let mut host = Recorder::open(&mut [], &[0, 65]);
    let mut stack = [7; 5];
    program.makes(&rt, &mut stack, &mut host, &never)?;
    assert!(rt; stack == [7; 5]);
    program.makes(&rt, &mut [], &mut host, &never)?;
    let mut stack = [7; 6];
    program.makes(
        &rt,
        &mut stack,
        &mut host,
        &[(99, Stop::Ended(End::Value(65)), 2)],
    )?;
    assert!(rt; stack == [0, 65_535, 65_535, 0, 0, 65]);
    Ok(())
}

// The code begins at 33, so the call stands at 42 and the caller goes on at 44.
#[test]
fn frames_on_the_cells(rt: HostRuntime) -> Result<(), Fail> {
    let main = Method {
        parameters: 0,
        locals: 2,
        code: &[
            &[BIPUSH, 0, 11],
            &[BIPUSH, 0, 12],
            &[BIPUSH, 0, 13],
            &[CALL, 1],
            &[IADD],
            &[IRETURN],
        ],
    };
    let called = Method {
        parameters: 2,
        locals: 1,
        code: &[&[ILOAD, 1], &[IRETURN]],
    };
    let program = Program::of_methods(rt.alloc(), &[main, called])?;
    let mut host = Recorder::open(&mut [], &[]);
    let mut stack = [7; 13];
    program.makes(&rt, &mut stack, &mut host, &[(5, Stop::Spent, 5)])?;
    assert!(rt; stack == [0, 65_535, 65_535, 0, 0, 11, 1, 44, 0, 12, 13, 0, 13]);
    // on one cell less the call does not fit, and is not begun
    let mut stack = [7; 12];
    program.makes(&rt, &mut stack, &mut host, &[(5, Stop::StackFull, 3)])?;
    assert!(rt; stack[0..8] == [0, 65_535, 65_535, 0, 0, 11, 12, 13]);
    // IRETURN leaves its value on the cells
    let mut stack = [7; 13];
    program.makes(
        &rt,
        &mut stack,
        &mut host,
        &[(99, Stop::Ended(End::Value(24)), 8)],
    )?;
    assert!(rt; stack[0..6] == [0, 65_535, 65_535, 0, 0, 24]);
    Ok(())
}
