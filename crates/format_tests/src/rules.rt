//! Each rule at its place.
use crate::files::{ONE, TWO, accepted, changed, refused};
use refusals::Rule;
use std::test::Fail;

#[test]
fn the_header(rt: HostRuntime) -> Result<(), Fail> {
    refused(&rt, b"", Rule::HeaderCut, 0)?;
    refused(&rt, &ONE[0..12], Rule::HeaderCut, 12)?;
    refused(&rt, &changed(0, 0x66), Rule::WrongMagic, 0)?;
    refused(&rt, &changed(1, 0x4B), Rule::WrongMagic, 0)?;
    refused(&rt, &changed(2, 0x57), Rule::WrongMagic, 0)?;
    refused(&rt, &changed(3, 0x4C), Rule::WrongMagic, 0)?;
    refused(&rt, &changed(4, 0x11), Rule::WrongVersion, 4)?;
    refused(&rt, &changed(10, 0), Rule::NoMethod, 10)
}

#[test]
fn the_tables(rt: HostRuntime) -> Result<(), Fail> {
    refused(&rt, &ONE[0..13], Rule::TablesCut, 13)?;
    refused(&rt, &ONE[0..22], Rule::TablesCut, 22)?;
    refused(&rt, &ONE[0..23], Rule::BadCode, 13)?;
    refused(&rt, &TWO[0..34], Rule::TablesCut, 34)?;
    refused(&rt, &changed(10, 255), Rule::TablesCut, 63)?;
    refused(&rt, &changed(11, 255), Rule::TablesCut, 63)
}

#[test]
fn the_variables(rt: HostRuntime) -> Result<(), Fail> {
    refused(&rt, &changed(17, 1), Rule::BadVariables, 13)?;
    accepted(&changed(18, 255))?;
    accepted(&changed(28, 254))?;
    refused(&rt, &changed(28, 255), Rule::BadVariables, 23)?;
    refused(&rt, &changed(27, 254), Rule::BadVariables, 23)
}

#[test]
fn the_code(rt: HostRuntime) -> Result<(), Fail> {
    refused(&rt, &changed(16, 0x22), Rule::BadCode, 13)?;
    refused(&rt, &changed(16, 0x24), Rule::BadCode, 13)?;
    refused(&rt, &changed(13, 1), Rule::BadCode, 13)?;
    refused(&rt, &changed(26, 0x25), Rule::BadCode, 23)?;
    refused(&rt, &changed(26, 0x27), Rule::BadCode, 23)?;
    refused(&rt, &changed(43, 0), Rule::BadCode, 13)?;
    refused(&rt, &changed(48, 0), Rule::BadCode, 23)?;
    refused(&rt, &changed(32, 61), Rule::BadCode, 23)?;
    refused(&rt, &changed(29, 0xFF), Rule::BadCode, 23)
}

#[test]
fn the_debug_blocks(rt: HostRuntime) -> Result<(), Fail> {
    refused(&rt, &changed(32, 60), Rule::BadDebugBlock, 13)?;
    refused(&rt, &changed(48, 4), Rule::BadDebugBlock, 13)?;
    refused(&rt, &changed(41, 4), Rule::BadDebugBlock, 23)?;
    refused(&rt, &changed(46, 0), Rule::BadDebugBlock, 23)?;
    refused(&rt, &changed(46, 1), Rule::BadDebugBlock, 23)?;
    refused(&rt, &changed(46, 3), Rule::BadDebugBlock, 23)?;
    refused(&rt, &changed(46, 16), Rule::BadDebugBlock, 23)
}

#[test]
fn the_messages(rt: HostRuntime) -> Result<(), Fail> {
    refused(&rt, &changed(46, 14), Rule::BadMessage, 63)?;
    refused(&rt, &changed(52, 1), Rule::BadMessage, 51)?;
    refused(&rt, &changed(51, 1), Rule::BadMessage, 51)?;
    refused(&rt, &changed(54, 3), Rule::BadMessage, 53)?;
    refused(&rt, &changed(54, 10), Rule::BadMessage, 53)?;
    refused(&rt, &changed(54, 8), Rule::BadProgramName, 5)
}

#[test]
fn the_program_name(rt: HostRuntime) -> Result<(), Fail> {
    refused(&rt, &changed(5, 0), Rule::BadProgramName, 5)?;
    refused(&rt, &changed(5, 1), Rule::BadProgramName, 5)?;
    refused(&rt, &changed(5, 2), Rule::BadProgramName, 5)?;
    refused(&rt, &changed(9, 58), Rule::BadProgramName, 5)?;
    refused(&rt, &changed(9, 60), Rule::BadProgramName, 5)?;
    refused(&rt, &changed(6, 1), Rule::BadProgramName, 5)?;
    refused(&rt, &TWO[0..62], Rule::BadProgramName, 5)?;
    accepted(&TWO)?;
    accepted(&ONE)
}
