//! The check of a file in as much memory as it has bytes.
ghost use Rattle.std.specs.Prelude.{◌≡◌, length, IfOk};
ghost use Rattle.std.specs.Result.{result_err};
ghost use Rattle.verifier.specs.Numbering.{numbering, with_peaks, check_refusal, Admitted as IsAdmitted};

use refusals::Refusal;
use verifier::admit::{Admitted, admit};
use verifier::check::check;
use verifier::pending::Pending;

/// Fills a sheet and admits the file with it, or answers why the file is refused.
pub(crate) fn checked<'f, 's>(
    file: &'f [u8],
    sheet: &'s mut [u16],
    pending: &mut [Pending],
) -> Result<Admitted<'f, 's>, Refusal>
    requires sheet { length sheet.old ≡ length file.now }
    requires pending { length pending.old ≡ length file.now }
    ensures refuses { result_err result ≡ check_refusal file.now (length file.now) (length file.now) }
    ensures file { IfOk result (λ a. a.file.now ≡ file.now) }
    ensures sheet { IfOk result (λ a. a.sheet.now ≡ with_peaks file.now (numbering file.now)) }
    ensures admitted { IfOk result (λ a. IsAdmitted a.file.now a.sheet.now) }
{
    check(file, sheet, pending)?;
    admit(file, sheet)
}
