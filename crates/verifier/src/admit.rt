//! Admitting a file with a sheet.
ghost use Rattle.std.specs.Prelude.{◌≡◌, ◌<◌, IfOk, OnOk};
ghost use Rattle.std.specs.Option.{option_map};
ghost use Rattle.std.specs.Result.{result_err};
ghost use Rattle.refusals.specs.declared.Rule.TheVariants.{BadNumber, BadPeak};
ghost use Rattle.format.specs.Search.{first, upto};
ghost use Rattle.format.specs.Layout.{methods, entry};
ghost use Rattle.format.specs.Rules.{refused};
ghost use Rattle.bytecode.specs.Places.{Point, points};
ghost use Rattle.verifier.specs.Bytes.{bytes};
ghost use Rattle.verifier.specs.Numbering.{breaks, bad_peak, admit_refusal};
ghost use Rattle.verifier.specs.Verdicts.{AgreesWithCheck};

use crate::code::Code;
use crate::judge::first_break;
use crate::method_peak::peak_of;
use crate::sheet::entry_at;
use bytecode::rules::every_method_keeps;
use format::layout::{entry_place, method_count};
use format::reader::read;
use format::refuse::refuse_at;
use refusals::{Refusal, Rule};

/// Every place keeps the sheet's rule.
fn every_number_right(code: &Code, sheet: &[u16]) -> Result<(), Refusal>
    ensures { result_err result ≡ refused BadNumber (option_map (λ (x : Point). x.place) (first (breaks (bytes code.now) sheet.now) (points (bytes code.now)))) }
{
    every_method_keeps(code.file, Rule::BadNumber, |k| first_break(code, sheet, k))
}

/// Whether the sheet's entry of method `k` is not its peak.
fn bad_peak(code: &Code, sheet: &[u16], k: usize) -> bool
    requires { k < methods (bytes code.now) }
    ensures { result ≡ bad_peak (bytes code.now) sheet.now k }
{
    entry_at(sheet, entry_place(k)) != peak_of(code, sheet, k)
}

/// The sheet has every method's peak at its entry.
fn every_peak_right(code: &Code, sheet: &[u16]) -> Result<(), Refusal>
    ensures { result_err result ≡ refused BadPeak (option_map entry (first (bad_peak (bytes code.now) sheet.now) (upto (methods (bytes code.now))))) }
{
    let first = (0..method_count(code.file) as usize).find(|k| bad_peak(code, sheet, *k));
    refuse_at(Rule::BadPeak, first.map(entry_place))
}

// No ghost field says that the pair is admitted: a start asks for that, and one that can't show it has to be turned down (docs/turned-down.md).

/// A file with a sheet that it is admitted with. It is made by `admit` alone.
#[derive(Clone, Copy)]
pub struct Admitted<'f, 's> {
    file: &'f [u8],
    sheet: &'s [u16],
}

impl<'f, 's> Admitted<'f, 's> {
    /// The file, and the sheet.
    pub fn parts(&self) -> (&'f [u8], &'s [u16])
        ensures file { result.0.now ≡ self.now.file.now }
        ensures sheet { result.1.now ≡ self.now.sheet.now }
    {
        (self.file, self.sheet)
    }
}

/// Admits a file of any length and content with a sheet of any length and content, or refuses it by the first rule that is broken.
pub fn admit<'f, 's>(file: &'f [u8], sheet: &'s [u16]) -> Result<Admitted<'f, 's>, Refusal>
    ensures refuses { result_err result ≡ admit_refusal file.now sheet.now }
    ensures holds { IfOk result (λ a. (a.file.now ≡ file.now) × (a.sheet.now ≡ sheet.now)) }
    ensures agrees { OnOk result (AgreesWithCheck file.now sheet.now) }
{
    read(file)?;
    if sheet.len() < file.len() {
        return Err(Refusal {
            rule: Rule::MemoryShort,
            place: 0,
        });
    }
    let code = Code::of(file)?;
    every_number_right(&code, sheet)?;
    every_peak_right(&code, sheet)?;
    Ok(Admitted { file, sheet })
}
