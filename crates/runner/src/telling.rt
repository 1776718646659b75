//! What a program tells of a file, on a host of any kind.
ghost use Rattle.std.specs.Prelude.{◌≡◌, ◌≤◌, List, ℕ, length, IfOk, string_bytes};
ghost use Rattle.verifier.specs.Numbering.{Admitted as IsAdmitted};
ghost use Rattle.machine.specs.Go.{Outcome};
ghost use Rattle.runner.specs.Texts.{key_units, new_host, first_go, checked_text, program_text};

use crate::checking::checked;
use crate::memory::{CELLS, LARGEST, Memory, SLOTS};
use reports::report::refusal_report;
use std::alloc::{AllocError, Global};
use verifier::admit::Admitted;

/// A kind of host on which a program makes the first go of a file, and tells how it went.
pub(crate) trait Telling {
    ghost told: { Outcome → List ℕ };

    /// The report of the first go with these keys.
    fn admitted_text(
        heap: Global,
        admitted: Admitted<'_, '_>,
        keys: &[u8],
        line: &mut [u16; SLOTS],
        cells: &mut [u16; CELLS],
    ) -> Result<String, AllocError>
        requires { IsAdmitted admitted.file.now admitted.sheet.now }
        ensures { IfOk result (λ s. string_bytes s ≡ told (first_go admitted.entry.file.now admitted.entry.sheet.now (new_host (key_units keys.now)))) };
}

/// The report of a file that is not too large.
fn small_text<T: Telling>(
    heap: Global,
    file: &[u8],
    keys: &[u8],
    memory: &mut Memory,
) -> Result<String, AllocError>
    requires { length file.now ≤ 8192 }
    ensures { IfOk result (λ s. string_bytes s ≡ checked_text T.told file.now keys.now) }
{
    let size = file.len();
    match checked(
        file,
        &mut memory.sheet[0..size],
        &mut memory.pending[0..size],
    ) {
        Ok(admitted) => {
            T::admitted_text(heap, admitted, keys, &mut memory.line, &mut memory.cells)
        }
        Err(refusal) => refusal_report(heap, refusal),
    }
}

/// What a program prints of a file and the bytes of its keys.
pub(crate) fn program_text<T: Telling>(
    heap: Global,
    file: &[u8],
    keys: &[u8],
    memory: &mut Memory,
) -> Result<String, AllocError>
    ensures { IfOk result (λ s. string_bytes s ≡ program_text T.told file.now keys.now) }
{
    if file.len() > LARGEST {
        return format!(in heap; "large\n");
    }
    small_text::<T>(heap, file, keys, memory)
}
