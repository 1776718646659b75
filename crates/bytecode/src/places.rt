//! The places of a method: the addresses of its instructions, one after another from its start.
ghost use Rattle.std.specs.Prelude.{◌≡◌, ◌+◌, ◌<◌, ◌≤◌, length, if◌then◌else◌};
ghost use Rattle.format.specs.Search.{when};
ghost use Rattle.format.specs.Layout.{methods, code_address, code_size};
ghost use Rattle.format.specs.Parts.{Accepted};
ghost use Rattle.bytecode.specs.Places.{code_end, whole, next, places, is_place, holds};
ghost use Rattle.bytecode.specs.Walk.{left};

use crate::opcodes::length;
use crate::walk::Places;
use format::layout::{debug_head, method_entry};

/// Where the code of a method begins and ends.
#[derive(Clone, Copy, PartialEq, Eq, Debug)]
pub struct CodeRange {
    pub start: usize,
    pub end: usize,
}

/// How many bytes the code of method `k` has. Four bytes and more of the file stand after it.
fn code_size(file: &[u8], k: usize) -> usize
    requires { (Accepted file.now) × (k < methods file.now) }
    ensures is { result ≡ code_size file.now k }
    ensures inside { (code_address file.now k + result + 4 ≤ length file.now) × (length file.now < 65536) }
{
    debug_head(file, k).code_size as usize
}

/// The code of method `k`. Only for the crates above: the layout of the file is accepted, and it has this method.
pub fn code_range(file: &[u8], k: usize) -> CodeRange
    requires { (Accepted file.now) × (k < methods file.now) }
    ensures starts { result.start ≡ code_address file.now k }
    ensures ends { result.end ≡ code_end file.now k }
    ensures inside { (result.end + 4 ≤ length file.now) × (length file.now < 65536) }
{
    let start = method_entry(file, k).code as usize;
    CodeRange {
        start,
        end: start + code_size(file, k),
    }
}

/// Where the instruction at `place` ends; nothing if it is unknown or ends past `end`.
pub(crate) fn instruction_end(file: &[u8], place: usize, end: usize) -> Option<usize>
    requires { (place < end) × ((end ≤ length file.now) × (end < 65536)) }
    ensures { result ≡ when (whole file.now end place) (next file.now place) }
{
    let size = length(file[place]) as usize;
    (size != 0 && place + size <= end).then_some(place + size)
}

/// The place after the instruction at `place`; `end`, if the instruction is unknown or ends past it. Only for the crates above: `place` is
/// in the code that ends at `end`.
pub fn next_place(file: &[u8], place: usize, end: usize) -> usize
    requires { (place < end) × ((end ≤ length file.now) × (end < 65536)) }
    ensures is { result ≡ (if whole file.now end place then next file.now place else end) }
    ensures later { place < result }
{
    instruction_end(file, place, end).unwrap_or(end)
}

/// The places of method `k`, one after another. Only for the crates above: the layout of the file is accepted, and it has this method.
pub fn code_places(file: &[u8], k: usize) -> Places<'_>
    requires { (Accepted file.now) × (k < methods file.now) }
    ensures { left result ≡ places file.now k }
{
    let code = code_range(file, k);
    Places {
        file,
        place: code.start,
        end: code.end,
    }
}

/// Whether `place` is a place of method `k`. Only for the crates above: the layout of the file is accepted, and it has this method.
pub fn is_place(file: &[u8], k: usize, place: usize) -> bool
    requires { (Accepted file.now) × (k < methods file.now) }
    ensures { result ≡ is_place file.now k place }
{
    code_places(file, k).any(|at| at == place)
}

/// Whether method `k` holds an instruction with this opcode.
pub(crate) fn holds(file: &[u8], k: usize, opcode: u8) -> bool
    requires { (Accepted file.now) × (k < methods file.now) }
    ensures { result ≡ holds file.now k opcode }
{
    code_places(file, k).any(|place| file[place] == opcode)
}
