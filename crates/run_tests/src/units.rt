//! IN and OUT on hosts with units and without, with room and without.
use crate::opcodes::*;
use crate::programs::{Method, Program};
use host::Host;
use host::label::Label;
use host::recorder::Recorder;
use machine::stop::{End, Stop};
use run::run::Run;
use std::test::Fail;

const PLAIN: Stop = Stop::Ended(End::Plain);

/// A mode, a value, and the record of what OUT writes of it.
const RECORDS: [(u8, u16, &[u8]); 14] = [
    (0, 0, b"\x01\0\x02\0\0"),
    (0, 0xFFFF, b"\x01\0\x02\xFF\xFF"),
    (0, 32_767, b"\x01\0\x02\x7F\xFF"),
    (0, 0x8000, b"\x01\0\x02\x80\0"),
    (1, 0, b"\x01\0\x02\00"),
    (1, 0xFFFF, b"\x01\0\x04\0-\01"),
    (1, 32_767, b"\x01\0\x0A\03\02\07\06\07"),
    (1, 0x8000, b"\x01\0\x0C\0-\03\02\07\06\08"),
    // a tenth, cut toward 0
    (2, 0, b"\x01\0\x02\00"),
    (2, 0xFFFF, b"\x01\0\x02\00"),
    (2, 0xFFF6, b"\x01\0\x04\0-\01"),
    (2, 99, b"\x01\0\x02\09"),
    (2, 32_767, b"\x01\0\x08\03\02\07\06"),
    (2, 0x8000, b"\x01\0\x0A\0-\03\02\07\06"),
];

/// A program that writes the value in the mode.
fn writing(rt: &HostRuntime, mode: u8, value: u16) -> Result<Program, Fail> {
    let [high, low] = value.to_be_bytes();
    let code: [&[u8]; 4] = [&[SETOUT, mode], &[BIPUSH, high, low], &[OUT], &[RETURN]];
    Program::of_main(rt.alloc(), 0, &code)
}

#[test]
fn room_enough(rt: HostRuntime) -> Result<(), Fail> {
    for (mode, value, record) in RECORDS {
        let mut memory = vec![in rt.alloc(); 9u8; record.len()]?;
        let mut host = Recorder::open(memory.as_mut_slice(), &[]);
        writing(&rt, mode, value)?.makes(&rt, &mut [7; 4], &mut host, &[(9, PLAIN, 4)])?;
        assert!(rt; memory.as_slice() == record);
    }
    Ok(())
}

// Room for one unit less: none is written, however often it is tried.
#[test]
fn room_one_short(rt: HostRuntime) -> Result<(), Fail> {
    for (mode, value, record) in RECORDS {
        let mut memory = vec![in rt.alloc(); 9u8; record.len().saturating_sub(2)]?;
        let mut host = Recorder::open(memory.as_mut_slice(), &[]);
        writing(&rt, mode, value)?.makes(
            &rt,
            &mut [7; 4],
            &mut host,
            &[
                (9, Stop::NoRoom, 2),
                (9, Stop::NoRoom, 0),
                (0, Stop::Spent, 0),
            ],
        )?;
        assert!(rt; memory.as_slice().starts_with(&[1, 0, 0]));
        for byte in memory.as_slice().iter().skip(3) {
            assert_eq!(rt; *byte, 9);
        }
    }
    Ok(())
}

/// Main's code and method 1's, the record of what they write, and the count.
const MODES: [(&[&[u8]], &[&[u8]], &[u8], u32); 4] = [
    // 0 at first
    (
        &[&[BIPUSH, 0, 65], &[OUT], &[RETURN]],
        &[&[RETURN]],
        b"\x01\0\x02\0A",
        3,
    ),
    // the last one set counts
    (
        &[
            &[SETOUT, 2],
            &[SETOUT, 1],
            &[BIPUSH, 0, 65],
            &[OUT],
            &[RETURN],
        ],
        &[&[RETURN]],
        b"\x01\0\x04\06\05",
        5,
    ),
    // a call keeps the mode
    (
        &[&[SETOUT, 1], &[CALL, 1], &[RETURN]],
        &[&[BIPUSH, 0, 65], &[OUT], &[RETURN]],
        b"\x01\0\x04\06\05",
        6,
    ),
    // and so does a return
    (
        &[&[CALL, 1], &[BIPUSH, 0, 65], &[OUT], &[RETURN]],
        &[&[SETOUT, 2], &[RETURN]],
        b"\x01\0\x02\06",
        6,
    ),
];

#[test]
fn modes(rt: HostRuntime) -> Result<(), Fail> {
    for (main, called, record, count) in MODES {
        let main = Method {
            parameters: 0,
            locals: 0,
            code: main,
        };
        let called = Method {
            parameters: 0,
            locals: 0,
            code: called,
        };
        let mut memory = vec![in rt.alloc(); 9u8; record.len()]?;
        let mut host = Recorder::open(memory.as_mut_slice(), &[]);
        Program::of_methods(rt.alloc(), &[main, called])?.makes(
            &rt,
            &mut [7; 9],
            &mut host,
            &[(99, PLAIN, count)],
        )?;
        assert!(rt; memory.as_slice() == record);
    }
    Ok(())
}

// The units are taken in order, and what OUT has no room for is tried again. The odd last byte is no unit.
#[test]
fn copies(rt: HostRuntime) -> Result<(), Fail> {
    // 0 to 2 for ever
    let code: [&[u8]; 4] = [&[IN], &[OUT], &[GOTO, 0xFF, 0xFE], &[RETURN]];
    let program = Program::of_main(rt.alloc(), 0, &code)?;
    let mut memory = [9; 8];
    let mut host = Recorder::open(&mut memory, &[0, 65, 0xFF, 0xFE, 3]);
    program.makes(
        &rt,
        &mut [7; 4],
        &mut host,
        &[
            (1, Stop::Spent, 1),
            (99, Stop::NoUnit, 5),
            (99, Stop::NoUnit, 0),
        ],
    )?;
    assert!(rt; memory == [1, 0, 4, 0, 65, 0xFF, 0xFE, 9]);
    let mut memory = [9; 6];
    let mut host = Recorder::open(&mut memory, &[0, 65, 0xFF, 0xFE]);
    program.makes(
        &rt,
        &mut [7; 4],
        &mut host,
        &[(99, Stop::NoRoom, 4), (99, Stop::NoRoom, 0)],
    )?;
    assert!(rt; memory == [1, 0, 2, 0, 65, 9]);
    Ok(())
}

// A unit that arrives between two gos is taken by the second.
#[test]
fn units_arrive(rt: HostRuntime) -> Result<(), Fail> {
    let code: [&[u8]; 4] = [&[IN], &[OUT], &[GOTO, 0xFF, 0xFE], &[RETURN]];
    let program = Program::of_main(rt.alloc(), 0, &code)?;
    let mut cells = [7; 4];
    let mut slots = [0; 2];
    let mut label = Label::new(&mut slots);
    let mut run = Run::start(program.admitted()?, &mut cells);
    assert_eq!(rt; run.go(&mut label, 0).0, Stop::Spent);
    assert_eq!(rt; run.go(&mut label, 9).0, Stop::NoUnit);
    assert_eq!(rt; label.key(65), Ok(()));
    let (stop, count) = run.go(&mut label, 9);
    assert_eq!(rt; stop, Stop::NoUnit);
    assert_eq!(rt; count, 3);
    assert_eq!(rt; label.key(66), Ok(()));
    assert_eq!(rt; label.key(67), Ok(()));
    let (stop, count) = run.go(&mut label, 99);
    assert_eq!(rt; stop, Stop::NoUnit);
    assert_eq!(rt; count, 6);
    assert!(rt; label.shown() == [65, 66, 67].as_slice());
    Ok(())
}

// A label has room for 96 units: 96 of mode 0, or 19 times the five of 32,767 in mode 1.
#[test]
fn a_full_label(rt: HostRuntime) -> Result<(), Fail> {
    // 6 to 2 for ever
    for (mode, count, shown) in [(0, 290, 96), (1, 59, 95)] {
        let code: [&[u8]; 5] = [
            &[SETOUT, mode],
            &[BIPUSH, 0x7F, 0xFF],
            &[OUT],
            &[GOTO, 0xFF, 0xFC],
            &[RETURN],
        ];
        let mut slots = [0; 1];
        let mut label = Label::new(&mut slots);
        Program::of_main(rt.alloc(), 0, &code)?.makes(
            &rt,
            &mut [7; 4],
            &mut label,
            &[(9_999, Stop::NoRoom, count), (9_999, Stop::NoRoom, 0)],
        )?;
        assert_eq!(rt; label.shown().len(), shown);
    }
    Ok(())
}
