//! Refusals of check, each at its place.
use crate::files::{accepted, file_of, file_of_methods, refused, sevens};
use refusals::{Refusal, Rule};
use std::alloc::Global;
use std::test::Fail;
use verifier::check::check as check_file;
use verifier::pending::Pending;

#[test]
fn the_code(rt: HostRuntime) -> Result<(), Fail> {
    let heap = rt.alloc();
    refused(
        &rt,
        heap,
        file_of(heap, b"\x01\xB1")?.as_slice(),
        Rule::BadInstruction,
        23,
    )?;
    refused(
        &rt,
        heap,
        file_of(heap, b"\xB1\x10\x00")?.as_slice(),
        Rule::BadInstruction,
        24,
    )?;
    refused(
        &rt,
        heap,
        file_of(heap, b"\x15\x00\xB1")?.as_slice(),
        Rule::BadIndex,
        23,
    )?;
    refused(
        &rt,
        heap,
        file_of(heap, b"\xFA\x03\xB1")?.as_slice(),
        Rule::BadIndex,
        23,
    )?;
    refused(
        &rt,
        heap,
        file_of(heap, b"\xB6\x01\xB1")?.as_slice(),
        Rule::BadIndex,
        23,
    )?;
    refused(
        &rt,
        heap,
        file_of(heap, b"\xA7\x00\x01\xB1")?.as_slice(),
        Rule::BadTarget,
        23,
    )?;
    refused(
        &rt,
        heap,
        file_of(heap, b"\xA7\xFF\xFF\xB1")?.as_slice(),
        Rule::BadTarget,
        23,
    )?;
    refused(
        &rt,
        heap,
        file_of(heap, b"\x00")?.as_slice(),
        Rule::MixedReturns,
        23,
    )?;
    refused(
        &rt,
        heap,
        file_of(heap, b"\xB1\xAC")?.as_slice(),
        Rule::MixedReturns,
        23,
    )
}

#[test]
fn the_numbering(rt: HostRuntime) -> Result<(), Fail> {
    let heap = rt.alloc();
    refused(
        &rt,
        heap,
        file_of(heap, b"\x57\xB1")?.as_slice(),
        Rule::NoNumbering,
        23,
    )?;
    refused(
        &rt,
        heap,
        file_of(heap, b"\x10\x00\x01\xA7\xFF\xFD\xB1")?.as_slice(),
        Rule::NoNumbering,
        23,
    )?;
    refused(
        &rt,
        heap,
        file_of(heap, b"\xA7\x00\x04\xB1\x00")?.as_slice(),
        Rule::NoNumbering,
        23,
    )?;
    refused(
        &rt,
        heap,
        file_of(heap, b"\xF0\x99\x00\x04\xF0\xB1")?.as_slice(),
        Rule::NoNumbering,
        23,
    )
}

#[test]
fn a_fall_into_the_next_method(rt: HostRuntime) -> Result<(), Fail> {
    let heap = rt.alloc();
    let main: &[u8] = b"\xB1";
    let falls: &[u8] = b"\xA7\x00\x04\xB1\x00";
    let next: &[u8] = b"\xB1";
    let file = file_of_methods(heap, &[main, falls, next])?;
    refused(&rt, heap, file.as_slice(), Rule::NoNumbering, 44)
}

/// A file that pushes so many values, and returns.
fn pushes(heap: Global, count: u16) -> Result<Vec<u8>, Fail> {
    let mut code = Vec::new(heap);
    for _ in 0..count.min(300) {
        code.extend_from_slice(b"\x10\x00\x01")?;
    }
    code.push(0xB1)?;
    Ok(file_of(heap, code.as_slice())?)
}

#[test]
fn too_many_values(rt: HostRuntime) -> Result<(), Fail> {
    let heap = rt.alloc();
    let most = pushes(heap, 255)?;
    accepted(&rt, heap, most.as_slice(), 256, 255)?;
    let over = pushes(heap, 256)?;
    refused(&rt, heap, over.as_slice(), Rule::NoNumbering, 23)
}

#[test]
fn memory_that_is_short(rt: HostRuntime) -> Result<(), Fail> {
    let heap = rt.alloc();
    let file = file_of(heap, b"\xF0\xF1\xB1")?;
    let short = Refusal {
        rule: Rule::MemoryShort,
        place: 0,
    };
    let mut sheet = sevens(heap, file.as_slice())?;
    let mut pending = vec![in heap; Pending {
        place: 0,
        number: 0
    }; 38]?;
    match check_file(
        file.as_slice(),
        sheet.as_mut_slice(),
        pending.as_mut_slice(),
    ) {
        Ok(_) => return Err(Fail::new("accepted")),
        Err(refusal) => assert_eq!(rt; refusal, short),
    }
    for entry in sheet.as_slice() {
        assert_eq!(rt; *entry, 7);
    }
    let mut little = vec![in heap; 7u16; 38]?;
    let mut enough = vec![in heap; Pending {
        place: 0,
        number: 0
    }; 39]?;
    match check_file(
        file.as_slice(),
        little.as_mut_slice(),
        enough.as_mut_slice(),
    ) {
        Ok(_) => return Err(Fail::new("accepted")),
        Err(refusal) => assert_eq!(rt; refusal, short),
    }
    assert_eq!(rt; little.first().copied(), Some(7));
    Ok(())
}
