//! A file run on a label.
ghost use Rattle.std.specs.Prelude.{◌≡◌, IfOk, string_bytes};
ghost use Rattle.runner.specs.Texts.{shown_text, ejvm_text};

use crate::first_go::first_row;
use crate::keys::{key_all, used};
use crate::memory::{CELLS, Memory, SLOTS};
use crate::telling::{Telling, program_text};
use host::label::Label;
use reports::report::run_report;
use std::alloc::{AllocError, Global};
use verifier::admit::Admitted;

/// Tells what the label shows.
struct OnLabel;

impl Telling for OnLabel {
    ghost told = { shown_text };

    fn admitted_text(
        heap: Global,
        admitted: Admitted<'_, '_>,
        keys: &[u8],
        line: &mut [u16; SLOTS],
        cells: &mut [u16; CELLS],
    ) -> Result<String, AllocError> {
        let mut label = Label::new(line);
        key_all(&mut label, used(keys));
        let (stop, count) = first_row(admitted, cells, &mut label);
        run_report(heap, stop, count, label.shown())
    }
}

/// What the program `ejvm` prints of a file and the bytes of its keys, each of any length and content.
pub fn run_text(
    heap: Global,
    file: &[u8],
    keys: &[u8],
    memory: &mut Memory,
) -> Result<String, AllocError>
    ensures { IfOk result (λ s. string_bytes s ≡ ejvm_text file.now keys.now) }
{
    program_text::<OnLabel>(heap, file, keys, memory)
}
