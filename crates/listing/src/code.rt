//! The lines of a method's code: each place with its number and its instruction.
ghost use Rattle.std.specs.Prelude.{◌≡◌, ◌+◌, ◌<◌, ◌≤◌, length, drop, IfOk, string_bytes};
ghost use Rattle.format.specs.Layout.{byte, methods, entry};
ghost use Rattle.bytecode.specs.Opcodes.{length_of, decode};
ghost use Rattle.verifier.specs.Numbering.{number};
ghost use Rattle.listing.specs.Code.{number_text, decoded_text, place_line, place_lines};

use crate::program::Program;
use bytecode::decode::instruction_at;
use bytecode::places::code_places;
use format::layout::entry_place;
use mnemonics::text;
use std::alloc::{AllocError, Global};
use verifier::sheet::entry_at;

/// An entry of the sheet: a number, or that the place is not reached.
fn number_text(heap: Global, entry: u16) -> Result<String, AllocError>
    ensures { IfOk result (λ s. string_bytes s ≡ number_text entry) }
{
    if entry <= 255 {
        format!(in heap; "number {entry}")
    } else {
        format!(in heap; "blank")
    }
}

impl Program<'_> {
    /// The peak of method `k`, which the sheet has at the method's entry.
    pub(crate) fn peak_at(&self, k: usize) -> u16
        requires { k < methods self.now.file.now }
        ensures { result ≡ number self.now.sheet.now (entry k) }
    {
        entry_at(self.sheet, entry_place(k))
    }

    /// The instruction at `place`, which is known.
    fn instruction_text(&self, heap: Global, place: usize) -> Result<String, AllocError>
        requires inside { place + 4 ≤ length self.now.file.now }
        requires known { 0 < length_of (byte self.now.file.now place) }
        ensures { IfOk result (λ s. string_bytes s ≡ decoded_text (decode (drop place self.now.file.now))) }
    {
        let Some(instruction) = instruction_at(self.file, place) else {
            unreachable()
        };
        text(heap, instruction)
    }

    /// The line of a place.
    fn place_line(&self, heap: Global, place: usize) -> Result<String, AllocError>
        requires inside { place + 4 ≤ length self.now.file.now }
        requires known { 0 < length_of (byte self.now.file.now place) }
        ensures { IfOk result (λ s. string_bytes s ≡ place_line self.now.file.now self.now.sheet.now place) }
    {
        let number = number_text(heap, entry_at(self.sheet, place))?;
        let instruction = self.instruction_text(heap, place)?;
        format!(in heap; "place {place} {number} {instruction}\n")
    }

    /// The lines of method `k`'s places.
    pub(crate) fn place_lines(&self, heap: Global, k: usize) -> Result<String, AllocError>
        requires { k < methods self.now.file.now }
        ensures { IfOk result (λ s. string_bytes s ≡ place_lines self.now.file.now self.now.sheet.now k) }
    {
        let mut text = String::new(heap);
        for place in code_places(self.file, k) {
            text.push_str(self.place_line(heap, place)?.as_str())?;
        }
        Ok(text)
    }
}
