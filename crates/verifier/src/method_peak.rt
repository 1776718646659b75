//! The peak of a method: the largest number of its places.
ghost use Rattle.std.specs.Prelude.{◌≡◌, ◌<◌};
ghost use Rattle.format.specs.Layout.{methods};
ghost use Rattle.verifier.specs.Bytes.{bytes};
ghost use Rattle.verifier.specs.Numbering.{peak};

use crate::code::Code;
use crate::sheet::{entry_at, is_number};
use bytecode::places::code_places;

/// The peak of method `k` in the sheet.
pub(crate) fn peak_of(code: &Code, sheet: &[u16], k: usize) -> u16
    requires { k < methods (bytes code.now) }
    ensures { result ≡ peak (bytes code.now) sheet.now k }
{
    let mut peak = 0;
    for place in code_places(code.file, k) {
        let entry = entry_at(sheet, place);
        if is_number(entry) {
            peak = peak.max(entry);
        }
    }
    peak
}
