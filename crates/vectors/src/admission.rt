//! What `admit` answers, and the runs of what it accepts.
ghost use Rattle.std.specs.Prelude.{◌≡◌};
ghost use Rattle.verifier.specs.Numbering.{Admitted as IsAdmitted};

use crate::on_label::{in_one_go, in_slices};
use crate::on_recorder::recorded;
use crate::stored::{Case, Entry, entry_numbers};
use std::alloc::{AllocError, Global};
use verifier::admit::{Admitted, admit};

/// Puts the damages into a sheet in their order. One whose entry the sheet does not have is left out.
pub(crate) fn damage(sheet: &mut [u16], damages: &[Entry]) {
    for stored in damages {
        let (place, value) = entry_numbers(*stored);
        if let Some(entry) = sheet.get_mut(place as usize) {
            *entry = value;
        }
    }
}

/// The words of the three runs.
fn runs_words(
    heap: Global,
    admitted: Admitted<'_, '_>,
    case: &Case<'_>,
) -> Result<String, AllocError>
    requires { IsAdmitted admitted.file.now admitted.sheet.now }
{
    let label = in_one_go(heap, admitted, case)?;
    let record = recorded(heap, admitted, case)?;
    let slices = in_slices(heap, admitted, case)?;
    format!(in heap; "ok label {label} record {record} slices {slices}")
}

/// The words of what `admit` answers of the case's file with this sheet, and of the runs.
pub(crate) fn admit_words(
    heap: Global,
    case: &Case<'_>,
    sheet: &[u16],
) -> Result<String, AllocError> {
    match admit(case.file, sheet) {
        Ok(admitted) => runs_words(heap, admitted, case),
        Err(refusal) => format!(in heap; "{refusal}"),
    }
}
