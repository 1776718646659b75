//! The parts of the file of two methods, just inside and just past each table.
use crate::files::{ONE, TWO};
use format::part::Part;
use format::reader::read;
use std::process::Abort;
use std::test::Fail;

/// The part is there, at the place, with these bytes.
fn found(rt: &impl Abort, part: Option<Part>, place: usize, bytes: &[u8]) -> Result<(), Fail> {
    let part = part.ok_or("no part")?;
    assert_eq!(rt; part.place, place);
    assert_eq!(rt; part.bytes, bytes);
    Ok(())
}

#[test]
fn names(rt: HostRuntime) -> Result<(), Fail> {
    let file = TWO;
    let reader = read(&file)?;
    found(&rt, reader.program_name(), 59, b"\0A\0B")?;
    found(&rt, reader.method_name(0), 44, b"\0m")?;
    found(&rt, reader.method_name(1), 49, b"\0f")?;
    assert!(rt; reader.method_name(2).is_none());
    assert!(rt; reader.method_name(256).is_none());
    assert!(rt; reader.method_name(usize::MAX).is_none());
    Ok(())
}

#[test]
fn code(rt: HostRuntime) -> Result<(), Fail> {
    let file = TWO;
    let reader = read(&file)?;
    assert_eq!(rt; reader.methods(), 2);
    found(&rt, reader.method_code(0), 35, b"\xF0\xF1\xB1")?;
    found(&rt, reader.method_code(1), 38, b"\x15\x00\xAC")?;
    assert!(rt; reader.method_code(2).is_none());
    let variables = reader.method_variables(1).ok_or("no variables")?;
    assert_eq!(rt; variables.parameters, 1);
    assert_eq!(rt; variables.locals, 2);
    assert!(rt; reader.method_variables(2).is_none());
    Ok(())
}

#[test]
fn constants_and_messages(rt: HostRuntime) -> Result<(), Fail> {
    let file = TWO;
    let reader = read(&file)?;
    assert_eq!(rt; reader.constants(), 1);
    assert_eq!(rt; reader.messages(), 2);
    found(&rt, reader.constant(0), 33, b"\xFF\xFB")?;
    assert!(rt; reader.constant(1).is_none());
    found(&rt, reader.message(0), 53, b"")?;
    found(&rt, reader.message(1), 55, b"\0H\0i")?;
    assert!(rt; reader.message(2).is_none());
    Ok(())
}

#[test]
fn no_constants_and_no_messages(rt: HostRuntime) -> Result<(), Fail> {
    let file = ONE;
    let reader = read(&file)?;
    found(&rt, reader.program_name(), 37, b"\0A")?;
    found(&rt, reader.method_name(0), 29, b"\0m\0a\0i\0n")?;
    found(&rt, reader.method_code(0), 23, b"\xF0\xF1\xB1")?;
    assert!(rt; reader.method_code(1).is_none());
    assert!(rt; reader.constant(0).is_none());
    assert!(rt; reader.message(0).is_none());
    Ok(())
}
