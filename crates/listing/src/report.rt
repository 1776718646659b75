//! The whole listing.
ghost use Rattle.std.specs.Prelude.{◌≡◌, ◌≤◌, ◌<◌, ℕ, List, length, IfOk, None, string_bytes};
ghost use Rattle.format.specs.Layout.{methods, constants, messages};
ghost use Rattle.format.specs.Parts.{Accepted};
ghost use Rattle.bytecode.specs.Rules.{code_refusal};
ghost use Rattle.listing.specs.Lines.{lines, method_lines, constant_line, message_line, parts_text, listing};

use crate::lines::refusal_text;
use crate::program::Program;
use format::reader::read;
use std::alloc::{AllocError, Global};
use verifier::check::check;
use verifier::pending::Pending;

/// The lines of the indices below `count`, in order, each as `line` makes it.
fn lines<F: Fn(usize) -> Result<String, AllocError>>(
    heap: Global,
    count: u8,
    line: F,
) -> Result<String, AllocError>
    requires { (index : ℕ) → index < count → F.pre line index }
    ensures { (each : ℕ → List ℕ) → ((index : ℕ) → index < count → (text : _) → F.post line index text → IfOk text (λ s. string_bytes s ≡ each index)) → IfOk result (λ s. string_bytes s ≡ lines each count) }
{
    let mut text = String::new(heap);
    for index in 0..usize::from(count) {
        text.push_str(line(index)?.as_str())?;
    }
    Ok(text)
}

impl Program<'_> {
    /// The lines of the methods and their places.
    fn method_lines(&self, heap: Global) -> Result<String, AllocError>
        ensures { IfOk result (λ s. string_bytes s ≡ lines (method_lines self.now.file.now self.now.sheet.now) (methods self.now.file.now)) }
    {
        let count = self.reader.methods();
        lines(heap, count, |index| self.method_and_places(heap, index))
    }

    /// The lines of the constants.
    fn constant_lines(&self, heap: Global) -> Result<String, AllocError>
        ensures { IfOk result (λ s. string_bytes s ≡ lines (constant_line self.now.file.now) (constants self.now.file.now)) }
    {
        let count = self.reader.constants();
        lines(heap, count, |index| self.constant_line(heap, index))
    }

    /// The lines of the messages.
    fn message_lines(&self, heap: Global) -> Result<String, AllocError>
        ensures { IfOk result (λ s. string_bytes s ≡ lines (message_line self.now.file.now) (messages self.now.file.now)) }
    {
        let count = self.reader.messages();
        lines(heap, count, |index| self.message_line(heap, index))
    }

    /// The parts of the file, with the numbers and peaks of the sheet.
    fn parts_text(&self, heap: Global) -> Result<String, AllocError>
        ensures { IfOk result (λ s. string_bytes s ≡ parts_text self.now.file.now self.now.sheet.now) }
    {
        let program = self.program_line(heap)?;
        let methods = self.method_lines(heap)?;
        let constants = self.constant_lines(heap)?;
        let messages = self.message_lines(heap)?;
        format!(in heap; "{program}{methods}{constants}{messages}")
    }
}

/// The parts of an accepted file.
fn accepted_text(heap: Global, file: &[u8], sheet: &[u16]) -> Result<String, AllocError>
    requires layout { Accepted file.now }
    requires code { code_refusal file.now ≡ None }
    ensures { IfOk result (λ s. string_bytes s ≡ parts_text file.now sheet.now) }
{
    let Ok(reader) = read(file) else {
        unreachable()
    };
    let program = Program {
        file,
        reader,
        sheet,
    };
    program.parts_text(heap)
}

/// The listing by a sheet and pending memory of as many entries as the file has bytes.
fn checked_text(
    heap: Global,
    file: &[u8],
    sheet: &mut [u16],
    pending: &mut [Pending],
) -> Result<String, AllocError>
    requires sheet { length sheet.old ≡ length file.now }
    requires pending { length pending.old ≡ length file.now }
    ensures { IfOk result (λ s. string_bytes s ≡ listing file.now) }
{
    match check(file, sheet, pending) {
        Ok(_) => accepted_text(heap, file, sheet),
        Err(refusal) => refusal_text(heap, refusal),
    }
}

/// The listing of a file of any length and content: its parts with the numbers that `check` gives, or its refusal with what that means.
pub fn listing(heap: Global, file: &[u8]) -> Result<String, AllocError>
    ensures { IfOk result (λ s. string_bytes s ≡ listing file.now) }
{
    let size = file.len();
    let mut sheet = vec![in heap; 65_535u16; size]?;
    let mut pending = vec![in heap; Pending {
        place: 0,
        number: 0
    }; size]?;
    checked_text(heap, file, sheet.as_mut_slice(), pending.as_mut_slice())
}
