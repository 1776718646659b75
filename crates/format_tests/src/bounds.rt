//! Long files and long messages.
use crate::files::{TWO, accepted, refused, with_message};
use refusals::Rule;
use std::test::Fail;

#[test]
fn the_longest_file(rt: HostRuntime) -> Result<(), Fail> {
    let mut file = vec![in rt.alloc(); 0; 65_535]?;
    refused(&rt, file.as_slice(), Rule::WrongMagic, 0)?;
    file.push(0)?;
    refused(&rt, file.as_slice(), Rule::FileTooLong, 0)
}

#[test]
fn a_byte_past_the_name(rt: HostRuntime) -> Result<(), Fail> {
    let mut file = Vec::from_slice(rt.alloc(), &TWO)?;
    file.push(0)?;
    refused(&rt, file.as_slice(), Rule::BadProgramName, 5)
}

#[test]
fn the_longest_message(rt: HostRuntime) -> Result<(), Fail> {
    let heap = rt.alloc();
    accepted(with_message(heap, 0)?.as_slice())?;
    accepted(with_message(heap, 2)?.as_slice())?;
    accepted(with_message(heap, 254)?.as_slice())?;
    refused(&rt, with_message(heap, 1)?.as_slice(), Rule::BadMessage, 37)?;
    refused(
        &rt,
        with_message(heap, 255)?.as_slice(),
        Rule::BadMessage,
        37,
    )?;
    refused(
        &rt,
        with_message(heap, 256)?.as_slice(),
        Rule::BadMessage,
        37,
    )
}
