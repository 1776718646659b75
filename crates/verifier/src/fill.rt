//! What check writes into the sheet besides the numbers, and what it counts there.
ghost use Rattle.std.specs.Prelude.{◌≡◌, ◌<◌, ◌≤◌, length, count_by};
ghost use Rattle.format.specs.Layout.{methods};
ghost use Rattle.bytecode.specs.Places.{places};
ghost use Rattle.verifier.specs.Bytes.{bytes};
ghost use Rattle.verifier.specs.Numbering.{number, numbered, count_to, largest_to, with_peaks};

use crate::code::Code;
use crate::method_peak::peak_of;
use crate::sheet::{entry_at, is_number};
use bytecode::places::code_places;
use format::layout::{entry_place, method_count};

/// How many places of method `k` are numbered.
fn count_method(code: &Code, sheet: &[u16], k: usize) -> usize
    requires { k < methods (bytes code.now) }
    ensures is { result ≡ count_by (λ p. numbered (number sheet.now p)) (places (bytes code.now) k) }
    ensures few { result ≤ 65536 }
{
    code_places(code.file, k)
        .filter(|place| is_number(entry_at(sheet, *place)))
        .count()
}

/// How many places of the file are numbered.
pub(crate) fn count_numbered(code: &Code, sheet: &[u16]) -> usize
    ensures { result ≡ count_to (bytes code.now) sheet.now (methods (bytes code.now)) }
{
    let mut count = 0;
    for k in 0..method_count(code.file) as usize {
        count += count_method(code, sheet, k);
    }
    count
}

/// Writes every method's peak at its entry, and answers the largest.
pub(crate) fn write_peaks(code: &Code, sheet: &mut [u16]) -> u16
    requires { length (bytes code.now) ≤ length sheet.old }
    ensures sheet { sheet.new ≡ with_peaks (bytes code.now) sheet.old }
    ensures largest { result ≡ largest_to (bytes code.now) sheet.old (methods (bytes code.now)) }
{
    let mut largest = 0;
    for k in 0..method_count(code.file) as usize {
        let peak = peak_of(code, sheet, k);
        sheet[entry_place(k)] = peak;
        largest = largest.max(peak);
    }
    largest
}
