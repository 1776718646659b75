//! Calls and returns. Main is method 0; the values and counts are those of the whole program.
use crate::opcodes::*;
use crate::programs::{Method, Program};
use std::test::Fail;

/// Main with so many variables, method 1 with so many parameters and locals, the value that main ends with, and the count.
struct Pair {
    variables: u8,
    main: &'static [&'static [u8]],
    parameters: u8,
    locals: u8,
    callee: &'static [&'static [u8]],
    value: u16,
    count: u32,
}

const PAIRS: [Pair; 9] = [
    // no parameter
    Pair {
        variables: 0,
        main: &[&[CALL, 1], &[IRETURN]],
        parameters: 0,
        locals: 0,
        callee: &[&[BIPUSH, 0, 42], &[IRETURN]],
        value: 42,
        count: 4,
    },
    // one parameter
    Pair {
        variables: 0,
        main: &[&[BIPUSH, 0, 20], &[CALL, 1], &[IRETURN]],
        parameters: 1,
        locals: 0,
        callee: &[&[ILOAD, 0], &[DUP], &[IADD], &[IRETURN]],
        value: 40,
        count: 7,
    },
    // the caller's other operands stay: 9 - 5
    Pair {
        variables: 0,
        main: &[
            &[BIPUSH, 0, 9],
            &[BIPUSH, 0, 5],
            &[CALL, 1],
            &[ISUB],
            &[IRETURN],
        ],
        parameters: 1,
        locals: 0,
        callee: &[&[ILOAD, 0], &[IRETURN]],
        value: 4,
        count: 7,
    },
    // locals are 0 in the second call too
    Pair {
        variables: 0,
        main: &[&[CALL, 1], &[POP], &[CALL, 1], &[IRETURN]],
        parameters: 0,
        locals: 1,
        callee: &[&[ILOAD, 0], &[IINC, 0, 0, 7], &[IRETURN]],
        value: 0,
        count: 10,
    },
    // locals come after the parameters
    Pair {
        variables: 0,
        main: &[&[BIPUSH, 0, 9], &[CALL, 1], &[IRETURN]],
        parameters: 1,
        locals: 1,
        callee: &[
            &[IINC, 1, 0, 2],
            &[ILOAD, 0],
            &[ILOAD, 1],
            &[ISUB],
            &[IRETURN],
        ],
        value: 7,
        count: 8,
    },
    // IRETURN drops the operands below its value: 9 + 3
    Pair {
        variables: 0,
        main: &[&[BIPUSH, 0, 9], &[CALL, 1], &[IADD], &[IRETURN]],
        parameters: 0,
        locals: 0,
        callee: &[&[BIPUSH, 0, 1], &[BIPUSH, 0, 3], &[IRETURN]],
        value: 12,
        count: 7,
    },
    // RETURN drops them all
    Pair {
        variables: 0,
        main: &[&[BIPUSH, 0, 9], &[CALL, 1], &[IRETURN]],
        parameters: 0,
        locals: 0,
        callee: &[&[BIPUSH, 0, 1], &[RETURN]],
        value: 9,
        count: 5,
    },
    // the callee's variable 0 is not main's
    Pair {
        variables: 1,
        main: &[
            &[IINC, 0, 0, 1],
            &[ILOAD, 0],
            &[CALL, 1],
            &[ILOAD, 0],
            &[IADD],
            &[IRETURN],
        ],
        parameters: 1,
        locals: 0,
        callee: &[&[IINC, 0, 0, 5], &[ILOAD, 0], &[IRETURN]],
        value: 7,
        count: 9,
    },
    // 10 + 9 + .. + 1 by recursion: 3 of main, 9 of each of the 10 calls with a number over 0, 4 of the last
    Pair {
        variables: 0,
        main: &[&[BIPUSH, 0, 10], &[CALL, 1], &[IRETURN]],
        parameters: 1,
        locals: 0,
        callee: &[
            &[ILOAD, 0],
            &[IFEQ, 0, 15],
            &[ILOAD, 0],
            &[ILOAD, 0],
            &[BIPUSH, 0, 1],
            &[ISUB],
            &[CALL, 1],
            &[IADD],
            &[IRETURN],
            &[BIPUSH, 0, 0],
            &[IRETURN],
        ],
        value: 55,
        count: 97,
    },
];

#[test]
fn pairs(rt: HostRuntime) -> Result<(), Fail> {
    for pair in &PAIRS {
        let main = Method {
            parameters: 0,
            locals: pair.variables,
            code: pair.main,
        };
        let callee = Method {
            parameters: pair.parameters,
            locals: pair.locals,
            code: pair.callee,
        };
        Program::of_methods(rt.alloc(), &[main, callee])?.gives(&rt, pair.value, pair.count)?;
    }
    Ok(())
}

/// A method that answers one of its three parameters, and which one it is.
const CHOICES: [(&[&[u8]], u16); 3] = [
    (&[&[ILOAD, 0], &[IRETURN]], 100),
    (&[&[ILOAD, 1], &[IRETURN]], 20),
    (&[&[ILOAD, 2], &[IRETURN]], 3),
];

#[test]
fn three_parameters_in_order(rt: HostRuntime) -> Result<(), Fail> {
    for (code, value) in CHOICES {
        let main = Method {
            parameters: 0,
            locals: 0,
            code: &[
                &[BIPUSH, 0, 100],
                &[BIPUSH, 0, 20],
                &[BIPUSH, 0, 3],
                &[CALL, 1],
                &[IRETURN],
            ],
        };
        let callee = Method {
            parameters: 3,
            locals: 0,
            code,
        };
        Program::of_methods(rt.alloc(), &[main, callee])?.gives(&rt, value, 7)?;
    }
    Ok(())
}

#[test]
fn the_last_of_255_methods(rt: HostRuntime) -> Result<(), Fail> {
    let main = Method {
        parameters: 0,
        locals: 0,
        code: &[&[CALL, 1], &[CALL, 254], &[IADD], &[IRETURN]],
    };
    let one = Method {
        parameters: 0,
        locals: 0,
        code: &[&[BIPUSH, 0, 1], &[IRETURN]],
    };
    let last = Method {
        parameters: 0,
        locals: 0,
        code: &[&[BIPUSH, 0, 90], &[IRETURN]],
    };
    let mut methods = [one; 255];
    methods[0] = main;
    methods[254] = last;
    Program::of_methods(rt.alloc(), &methods)?.gives(&rt, 91, 8)
}

// main calls 1, which calls 2 twice: 40 - 4
#[test]
fn a_call_in_a_call(rt: HostRuntime) -> Result<(), Fail> {
    let main = Method {
        parameters: 0,
        locals: 0,
        code: &[&[CALL, 1], &[IRETURN]],
    };
    let middle = Method {
        parameters: 0,
        locals: 0,
        code: &[
            &[BIPUSH, 0, 20],
            &[CALL, 2],
            &[BIPUSH, 0, 2],
            &[CALL, 2],
            &[ISUB],
            &[IRETURN],
        ],
    };
    let twice = Method {
        parameters: 1,
        locals: 0,
        code: &[&[ILOAD, 0], &[DUP], &[IADD], &[IRETURN]],
    };
    Program::of_methods(rt.alloc(), &[main, middle, twice])?.gives(&rt, 36, 16)
}
