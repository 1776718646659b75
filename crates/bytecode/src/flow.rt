//! What the instruction at a place takes and leaves, and where control goes on from it. Only for the crates above: four bytes of the
//! file stand at the place.
ghost use Rattle.std.specs.Prelude.{◌≡◌, ℕ, ◌+◌, ◌<◌, ◌≤◌, false, length, slice_index_or};
ghost use Rattle.format.specs.Layout.{byte, methods};
ghost use Rattle.format.specs.Parts.{Accepted};
ghost use Rattle.bytecode.specs.Opcodes.{target};
ghost use Rattle.bytecode.specs.Places.{takes, leaves, successors};
ghost use Rattle.bytecode.specs.Flow.{successor_list, Marked};

use crate::decode::instruction_at;
use crate::instruction::Instruction;
use crate::opcodes::{IRETURN, leaves, length, takes};
use crate::places::holds;
use crate::successors::Successors;
use format::layout::{method_count, method_entry};

/// Where a jump at `place` leads by its distance; 0 if it leads below the file. That is no place of any method, as the header stands there, so
/// an Option would only add a second way to lead to no place. Only for the crates above: `place` is in a file whose layout is accepted.
pub fn target(place: usize, distance: u16) -> usize
    requires { place < 65536 }
    ensures { result ≡ target place distance }
{
    place.saturating_add_signed(distance.cast_signed() as isize)
}

/// Where control goes on from the instruction at `place`.
pub fn successors(file: &[u8], place: usize) -> Successors
    requires { (place + 4 ≤ length file.now) × (place < 65536) }
    ensures { successor_list result ≡ successors file.now place }
{
    let next = place + length(file[place]) as usize;
    match instruction_at(file, place) {
        Some(
            Instruction::Ireturn | Instruction::Return | Instruction::Err(_) | Instruction::Halt,
        ) => Successors::Nowhere,
        Some(Instruction::Goto(distance)) => Successors::One(target(place, distance)),
        Some(
            Instruction::Ifeq(distance)
            | Instruction::Iflt(distance)
            | Instruction::IfIcmpeq(distance),
        ) => Successors::Two(target(place, distance), next),
        _ => Successors::One(next),
    }
}

/// Which methods return a value, each by its index. Only for the crates above: the layout of the file is accepted.
pub fn value_methods(file: &[u8]) -> [bool; 256]
    requires { Accepted file.now }
    ensures inside { Marked file.now result }
    ensures outside { (k : ℕ) → methods file.now ≤ k → slice_index_or result k false ≡ false }
{
    // Only the methods that there are can be asked, so the marks past them are left, and no closure fills them all.
    let mut returns_value = [false; 256];
    for k in 0..method_count(file) as usize {
        returns_value[k] = holds(file, k, IRETURN);
    }
    returns_value
}

/// How many working values the instruction at `place` takes: a call takes the parameters of the method called.
pub fn takes_at(file: &[u8], place: usize) -> u8
    requires { place + 4 ≤ length file.now }
    ensures { result ≡ takes file.now place }
{
    match instruction_at(file, place) {
        Some(Instruction::Invokevirtual(index)) => method_entry(file, index as usize).parameters,
        _ => takes(file[place]),
    }
}

/// How many working values the instruction at `place` leaves: a call leaves one if the method called returns a value. A call is of
/// a method that there is, and `returns_value` says which methods return one.
pub fn leaves_at(file: &[u8], returns_value: &[bool; 256], place: usize) -> u8
    requires room { place + 4 ≤ length file.now }
    requires called { byte file.now place ≡ 0xB6 → byte file.now (place + 1) < methods file.now }
    requires marked { Marked file.now returns_value.now }
    ensures { result ≡ leaves file.now place }
{
    match instruction_at(file, place) {
        Some(Instruction::Invokevirtual(index)) => u8::from(returns_value[index as usize]),
        _ => leaves(file[place]),
    }
}
