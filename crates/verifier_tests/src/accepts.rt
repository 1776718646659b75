//! Files that check accepts, and the sheet that it makes.
use crate::files::{BLANK, accepted, file_of, file_of_methods};
use std::test::Fail;

#[test]
fn in_out_return(rt: HostRuntime) -> Result<(), Fail> {
    let heap = rt.alloc();
    let file = file_of(heap, b"\xF0\xF1\xB1")?;
    let sheet = accepted(&rt, heap, file.as_slice(), 3, 1)?;
    assert_eq!(rt; sheet.get(23).copied(), Some(0));
    assert_eq!(rt; sheet.get(24).copied(), Some(1));
    assert_eq!(rt; sheet.get(25).copied(), Some(0));
    assert_eq!(rt; sheet.get(13).copied(), Some(1));
    assert_eq!(rt; sheet.get(12).copied(), Some(BLANK));
    assert_eq!(rt; sheet.get(26).copied(), Some(BLANK));
    assert_eq!(rt; sheet.get(38).copied(), Some(BLANK));
    Ok(())
}

#[test]
fn a_place_that_is_not_reached(rt: HostRuntime) -> Result<(), Fail> {
    let heap = rt.alloc();
    let file = file_of(heap, b"\xB1\x57")?;
    let sheet = accepted(&rt, heap, file.as_slice(), 1, 0)?;
    assert_eq!(rt; sheet.get(23).copied(), Some(0));
    assert_eq!(rt; sheet.get(24).copied(), Some(BLANK));
    assert_eq!(rt; sheet.get(13).copied(), Some(0));
    Ok(())
}

#[test]
fn a_jump_back_to_the_start(rt: HostRuntime) -> Result<(), Fail> {
    let heap = rt.alloc();
    let file = file_of(heap, b"\xF0\x57\xA7\xFF\xFE\xB1")?;
    let sheet = accepted(&rt, heap, file.as_slice(), 3, 1)?;
    assert_eq!(rt; sheet.get(24).copied(), Some(1));
    assert_eq!(rt; sheet.get(25).copied(), Some(0));
    assert_eq!(rt; sheet.get(28).copied(), Some(BLANK));
    Ok(())
}

#[test]
fn a_branch_whose_ways_meet(rt: HostRuntime) -> Result<(), Fail> {
    let heap = rt.alloc();
    let file = file_of(heap, b"\xF0\x59\x99\x00\x05\x59\xF1\xF1\xB1")?;
    let sheet = accepted(&rt, heap, file.as_slice(), 7, 2)?;
    assert_eq!(rt; sheet.get(25).copied(), Some(2));
    assert_eq!(rt; sheet.get(28).copied(), Some(1));
    assert_eq!(rt; sheet.get(29).copied(), Some(2));
    assert_eq!(rt; sheet.get(30).copied(), Some(1));
    assert_eq!(rt; sheet.get(31).copied(), Some(0));
    Ok(())
}

#[test]
fn a_method_of_one_byte(rt: HostRuntime) -> Result<(), Fail> {
    let heap = rt.alloc();
    let file = file_of(heap, b"\xB1")?;
    accepted(&rt, heap, file.as_slice(), 1, 0)?;
    Ok(())
}

#[test]
fn as_many_methods_as_there_can_be(rt: HostRuntime) -> Result<(), Fail> {
    let heap = rt.alloc();
    let code: &[u8] = b"\xB1";
    let file = file_of_methods(heap, &[code; 255])?;
    let sheet = accepted(&rt, heap, file.as_slice(), 255, 0)?;
    assert_eq!(rt; sheet.get(13 + 2540).copied(), Some(0));
    assert_eq!(rt; sheet.get(2563 + 254).copied(), Some(0));
    Ok(())
}
