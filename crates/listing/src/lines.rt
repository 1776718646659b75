//! The lines of a listing, each with its line feed.
ghost use Rattle.std.specs.Prelude.{◌≡◌, ◌<◌, IfOk, string_bytes};
ghost use Rattle.format.specs.Layout.{methods, constants, messages};
ghost use Rattle.listing.specs.Lines.{program_line, name_text, variables_text, code_text, method_line, method_lines, constant_line, message_line, refusal_text};

use crate::meanings::meaning_of;
use crate::program::Program;
use crate::text::shown;
use refusals::Refusal;
use std::alloc::{AllocError, Global};

// The reader's answers are Options, since an index may lie past its table. Here none does, so no `else` is reached.
impl Program<'_> {
    /// The line of the program's name.
    pub(crate) fn program_line(&self, heap: Global) -> Result<String, AllocError>
        ensures { IfOk result (λ s. string_bytes s ≡ program_line self.now.file.now) }
    {
        let Some(part) = self.reader.program_name() else {
            unreachable()
        };
        let name = shown(heap, part.bytes)?;
        format!(in heap; "program {name}\n")
    }

    /// A method's name.
    fn name_text(&self, heap: Global, index: usize) -> Result<String, AllocError>
        requires { index < methods self.now.file.now }
        ensures { IfOk result (λ s. string_bytes s ≡ name_text self.now.file.now index) }
    {
        let Some(part) = self.reader.method_name(index) else {
            unreachable()
        };
        shown(heap, part.bytes)
    }

    /// How many variables a method has.
    fn variables_text(&self, heap: Global, index: usize) -> Result<String, AllocError>
        requires { index < methods self.now.file.now }
        ensures { IfOk result (λ s. string_bytes s ≡ variables_text self.now.file.now index) }
    {
        let Some(variables) = self.reader.method_variables(index) else {
            unreachable()
        };
        format!(in heap;
            "parameters {} locals {}",
            variables.parameters, variables.locals
        )
    }

    /// Where a method's code stands, and how long it is.
    fn code_text(&self, heap: Global, index: usize) -> Result<String, AllocError>
        requires { index < methods self.now.file.now }
        ensures { IfOk result (λ s. string_bytes s ≡ code_text self.now.file.now index) }
    {
        let Some(part) = self.reader.method_code(index) else {
            unreachable()
        };
        format!(in heap; "code {} size {}", part.place, part.bytes.len())
    }

    /// The line of a method: its name, its variables, where its code stands and how long it is, and its peak.
    fn method_line(&self, heap: Global, index: usize, peak: u16) -> Result<String, AllocError>
        requires { index < methods self.now.file.now }
        ensures { IfOk result (λ s. string_bytes s ≡ method_line self.now.file.now index peak) }
    {
        let name = self.name_text(heap, index)?;
        let variables = self.variables_text(heap, index)?;
        let code = self.code_text(heap, index)?;
        format!(in heap; "method {index} {name} {variables} {code} peak {peak}\n")
    }

    /// The line of a method, and the lines of its places.
    pub(crate) fn method_and_places(&self, heap: Global, index: usize) -> Result<String, AllocError>
        requires { index < methods self.now.file.now }
        ensures { IfOk result (λ s. string_bytes s ≡ method_lines self.now.file.now self.now.sheet.now index) }
    {
        let method = self.method_line(heap, index, self.peak_at(index))?;
        let places = self.place_lines(heap, index)?;
        format!(in heap; "{method}{places}")
    }

    /// The line of a constant, a signed number.
    pub(crate) fn constant_line(&self, heap: Global, index: usize) -> Result<String, AllocError>
        requires { index < constants self.now.file.now }
        ensures { IfOk result (λ s. string_bytes s ≡ constant_line self.now.file.now index) }
    {
        let Some(part) = self.reader.constant(index) else {
            unreachable()
        };
        let [high, low] = part.bytes else {
            unreachable()
        };
        let number = i16::from_be_bytes([*high, *low]);
        format!(in heap; "constant {index} {number}\n")
    }

    /// The line of a message.
    pub(crate) fn message_line(&self, heap: Global, index: usize) -> Result<String, AllocError>
        requires { index < messages self.now.file.now }
        ensures { IfOk result (λ s. string_bytes s ≡ message_line self.now.file.now index) }
    {
        let Some(part) = self.reader.message(index) else {
            unreachable()
        };
        let message = shown(heap, part.bytes)?;
        format!(in heap; "message {index} {message}\n")
    }
}

/// The two lines of a refusal: its number and place, and what it means.
pub(crate) fn refusal_text(heap: Global, refusal: Refusal) -> Result<String, AllocError>
    ensures { IfOk result (λ s. string_bytes s ≡ refusal_text refusal) }
{
    let meaning = meaning_of(refusal.rule);
    format!(in heap; "{refusal}\n{meaning}\n")
}
