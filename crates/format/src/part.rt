//! The parts of a file. They are answered for bytes of any content: a part that passes the end is not there.
ghost use Rattle.std.specs.Prelude.{◌≡◌, ◌^◌, ◌<◌};
ghost use Rattle.std.specs.Option.{option_map};
ghost use Rattle.format.specs.Parts.{seen, within, program_name, method_name, method_code, constant, message};

use crate::bytes::{be16_at, be32_at, byte_at};
use crate::layout::{
    constant_count, debug_head, message_count, message_due, method_count, method_entry,
};

/// Bytes of a file, with the place where they stand in it.
#[derive(Clone, Copy, PartialEq, Eq, Debug)]
pub struct Part<'a> {
    pub bytes: &'a [u8],
    pub place: usize,
}

/// The `size` bytes at the place, where they do not pass the file's end.
fn part_within<'a>(file: &'a [u8], place: usize, size: usize) -> Option<Part<'a>>
    requires { (place < 2 ^ 40) × (size < 2 ^ 40) }
    ensures { option_map seen result ≡ within file.now place size }
{
    if place + size > file.len() {
        return None;
    }
    Some(Part {
        bytes: &file[place..place + size],
        place,
    })
}

/// The program's name.
pub(crate) fn program_name<'a>(file: &'a [u8]) -> Option<Part<'a>>
    ensures { option_map seen result ≡ program_name file.now }
{
    let address = be32_at(file, 6) as usize;
    part_within(file, address, byte_at(file, 5) as usize)
}

/// The name of method `index`.
pub(crate) fn method_name<'a>(file: &'a [u8], index: usize) -> Option<Part<'a>>
    ensures { option_map seen result ≡ method_name file.now index }
{
    if index >= method_count(file) as usize {
        return None;
    }
    let block = method_entry(file, index).debug as usize;
    let size = debug_head(file, index).name_size;
    part_within(file, block + 3, size as usize)
}

/// The code of method `index`.
pub(crate) fn method_code<'a>(file: &'a [u8], index: usize) -> Option<Part<'a>>
    ensures { option_map seen result ≡ method_code file.now index }
{
    if index >= method_count(file) as usize {
        return None;
    }
    let code = method_entry(file, index).code as usize;
    let size = debug_head(file, index).code_size;
    part_within(file, code, size as usize)
}

/// Constant `index`, its two bytes.
pub(crate) fn constant<'a>(file: &'a [u8], index: usize) -> Option<Part<'a>>
    ensures { option_map seen result ≡ constant file.now index }
{
    if index >= constant_count(file) as usize {
        return None;
    }
    let address = 13 + 10 * method_count(file) as usize + 2 * index;
    part_within(file, address, 2)
}

/// Message `index`, without its two size bytes.
pub(crate) fn message<'a>(file: &'a [u8], index: usize) -> Option<Part<'a>>
    ensures { option_map seen result ≡ message file.now index }
{
    if index >= message_count(file) as usize {
        return None;
    }
    let at = message_due(file, index);
    part_within(file, at + 2, be16_at(file, at) as usize)
}
