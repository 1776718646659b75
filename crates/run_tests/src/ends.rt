//! How a run ends, what a go on it answers then, and fuel.
use crate::opcodes::*;
use crate::programs::{Method, Program};
use host::recorder::Recorder;
use machine::stop::{End, Stop};
use std::test::Fail;

/// Main's code and method 1's, the end of the run, and how many instructions it takes.
const ENDS: [(&[&[u8]], &[&[u8]], End, u32); 10] = [
    (&[&[RETURN]], &[&[RETURN]], End::Plain, 1),
    (&[&[BIPUSH, 0, 1], &[RETURN]], &[&[RETURN]], End::Plain, 2),
    (
        &[&[BIPUSH, 0x80, 0], &[IRETURN]],
        &[&[RETURN]],
        End::Value(0x8000),
        2,
    ),
    (
        &[&[BIPUSH, 0, 1], &[BIPUSH, 0, 2], &[IRETURN]],
        &[&[RETURN]],
        End::Value(2),
        3,
    ),
    (&[&[HALT], &[RETURN]], &[&[RETURN]], End::Halt, 1),
    (&[&[ERR, 0], &[RETURN]], &[&[RETURN]], End::Error(0), 1),
    // the last message
    (
        &[&[NOP], &[ERR, 254], &[RETURN]],
        &[&[RETURN]],
        End::Error(254),
        2,
    ),
    // in a method that was called
    (
        &[&[CALL, 1], &[RETURN]],
        &[&[HALT], &[RETURN]],
        End::Halt,
        2,
    ),
    (
        &[&[CALL, 1], &[RETURN]],
        &[&[ERR, 7], &[RETURN]],
        End::Error(7),
        2,
    ),
    // a return from it does not end the run
    (&[&[CALL, 1], &[RETURN]], &[&[RETURN]], End::Plain, 3),
];

// In one go with just enough fuel, then again with any fuel: the same end, and nothing more is done.
// The host gets nothing, though there are units and room.
#[test]
fn ends_once(rt: HostRuntime) -> Result<(), Fail> {
    for (main, called, end, count) in ENDS {
        let main = Method {
            parameters: 0,
            locals: 0,
            code: main,
        };
        let called = Method {
            parameters: 0,
            locals: 0,
            code: called,
        };
        let program = Program::new(rt.alloc(), &[main, called], &[], 255)?;
        let ended = Stop::Ended(end);
        let mut cells = [7; 20];
        let mut memory = [9; 5];
        let mut host = Recorder::open(&mut memory, &[0, 65]);
        program.makes(
            &rt,
            &mut cells,
            &mut host,
            &[
                (count, ended, count),
                (4_294_967_295, ended, 0),
                (1, ended, 0),
                (0, ended, 0),
            ],
        )?;
        assert!(rt; memory == [1, 0, 0, 9, 9]);
    }
    Ok(())
}

// One instruction a go.
#[test]
fn ends_by_slices(rt: HostRuntime) -> Result<(), Fail> {
    let code: [&[u8]; 3] = [&[BIPUSH, 0, 1], &[NOP], &[IRETURN]];
    let ended = Stop::Ended(End::Value(1));
    Program::of_main(rt.alloc(), 0, &code)?.makes_alone(
        &rt,
        &[
            (0, Stop::Spent, 0),
            (1, Stop::Spent, 1),
            (0, Stop::Spent, 0),
            (1, Stop::Spent, 1),
            (1, ended, 1),
            (1, ended, 0),
            (0, ended, 0),
        ],
    )
}

// The last instruction counts: with one less fuel the run goes on.
#[test]
fn ends_on_exact_fuel(rt: HostRuntime) -> Result<(), Fail> {
    let code: [&[u8]; 3] = [&[BIPUSH, 0, 1], &[NOP], &[IRETURN]];
    let ended = Stop::Ended(End::Value(1));
    let program = Program::of_main(rt.alloc(), 0, &code)?;
    program.makes_alone(&rt, &[(2, Stop::Spent, 2), (1, ended, 1)])?;
    program.makes_alone(&rt, &[(3, ended, 3)])?;
    program.makes_alone(&rt, &[(4, ended, 3)])?;
    program.makes_alone(&rt, &[(4_294_967_295, ended, 3)])
}

// A jump to itself: as many instructions as there is fuel.
#[test]
fn never_ends(rt: HostRuntime) -> Result<(), Fail> {
    let code: [&[u8]; 2] = [&[GOTO, 0, 0], &[RETURN]];
    Program::of_main(rt.alloc(), 0, &code)?.makes_alone(
        &rt,
        &[
            (5, Stop::Spent, 5),
            (100_000, Stop::Spent, 100_000),
            (0, Stop::Spent, 0),
            (1, Stop::Spent, 1),
        ],
    )
}
