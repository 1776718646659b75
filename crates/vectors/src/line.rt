//! The line of a case.
use crate::admission::{admit_words, damage};
use crate::digest::digest_of_sheet;
use crate::memory::{filled_units, pending};
use crate::stored::Case;
use refusals::Refusal;
use std::alloc::{AllocError, Global};
use verifier::check::check;

/// The words of what `check` answers.
fn check_words(heap: Global, answer: Result<(usize, u16), Refusal>) -> Result<String, AllocError> {
    match answer {
        Ok((places, peak)) => format!(in heap; "{places} {peak}"),
        Err(refusal) => format!(in heap; "{refusal}"),
    }
}

/// Does all that is done with a case, and tells it.
pub(crate) fn case_line(heap: Global, index: usize, case: &Case<'_>) -> Result<String, AllocError> {
    let mut sheet = filled_units(heap, case.sheet)?;
    let mut pending = pending(heap, case.pending)?;
    let answer = check(case.file, sheet.as_mut_slice(), pending.as_mut_slice());
    let checked = check_words(heap, answer)?;
    let digest = digest_of_sheet(sheet.as_slice());
    damage(sheet.as_mut_slice(), case.damages);
    let admitted = admit_words(heap, case, sheet.as_slice())?;
    format!(in heap; "{index} check {checked} {digest:08X} admit {admitted}")
}
