//! Checking a file: numbering its places in a sheet.
ghost use Rattle.std.specs.Prelude.{◌≡◌, ◌<◌, ◌≤◌, length, IfOk, MatchResult};
ghost use Rattle.std.specs.Option.{option_map};
ghost use Rattle.std.specs.Result.{result_err};
ghost use Rattle.refusals.specs.declared.Rule.TheVariants.{NoNumbering};
ghost use Rattle.format.specs.Search.{first, upto};
ghost use Rattle.format.specs.Layout.{methods, code_address};
ghost use Rattle.format.specs.Parts.{Accepted};
ghost use Rattle.format.specs.Rules.{refused};
ghost use Rattle.verifier.specs.Bytes.{bytes};
ghost use Rattle.verifier.specs.Numbering.{numbering, unnumberable, blanks, with_peaks, tally, code_or_numbering_refusal, check_refusal, sheet_after};
ghost use Rattle.verifier.specs.Verdicts.{CheckLaws};
ghost use Rattle.verifier.specs.Worklist.{Complete};

use crate::code::Code;
use crate::fill::{count_numbered, write_peaks};
use crate::judge::first_break;
use crate::pending::Pending;
use crate::sheet::BLANK;
use crate::worklist::number_methods;
use bytecode::places::code_range;
use format::layout::method_count;
use format::reader::read;
use format::refuse::refuse_at;
use refusals::{Refusal, Rule};

/// Whether no numbering of method `k` keeps the rule, by a sheet in which nothing is left to number.
fn unnumberable(code: &Code, sheet: &[u16], k: usize) -> bool
    requires method { k < methods (bytes code.now) }
    requires complete { Complete (bytes code.now) sheet.now }
    ensures { result ≡ unnumberable (bytes code.now) k }
{
    first_break(code, sheet, k).is_some()
}

/// Every method has a numbering that keeps the rule, by a sheet in which nothing is left to number.
fn every_method_numberable(code: &Code, sheet: &[u16]) -> Result<(), Refusal>
    requires { Complete (bytes code.now) sheet.now }
    ensures { result_err result ≡ refused NoNumbering (option_map (code_address (bytes code.now)) (first (unnumberable (bytes code.now)) (upto (methods (bytes code.now))))) }
{
    let first = (0..method_count(code.file) as usize).find(|k| unnumberable(code, sheet, *k));
    refuse_at(
        Rule::NoNumbering,
        first.map(|k| code_range(code.file, k).start),
    )
}

/// Numbers a blank sheet of as many entries as the file has bytes, and answers its tally. If some method has no numbering, the sheet is blank again.
fn number_sheet(
    code: &Code,
    sheet: &mut [u16],
    pending: &mut [Pending],
) -> Result<(usize, u16), Refusal>
    requires blank { sheet.old ≡ blanks (bytes code.now) }
    requires room { length (bytes code.now) ≤ length pending.old }
    ensures refuses { result_err result ≡ refused NoNumbering (option_map (code_address (bytes code.now)) (first (unnumberable (bytes code.now)) (upto (methods (bytes code.now))))) }
    ensures tally { IfOk result (λ t. t ≡ tally (bytes code.now)) }
    ensures sheet { MatchResult result (λ _. sheet.new ≡ with_peaks (bytes code.now) (numbering (bytes code.now))) (λ _. sheet.new ≡ blanks (bytes code.now)) }
{
    number_methods(code, sheet, pending);
    if let Err(refusal) = every_method_numberable(code, sheet) {
        sheet.fill(BLANK);
        return Err(refusal);
    }
    let count = count_numbered(code, sheet);
    let largest = write_peaks(code, sheet);
    Ok((count, largest))
}

/// Fills a sheet of as many entries as the file has bytes. If the code is refused, the sheet is blank.
fn fill_sheet(
    file: &[u8],
    sheet: &mut [u16],
    pending: &mut [Pending],
) -> Result<(usize, u16), Refusal>
    requires layout { Accepted file.now }
    requires long { length sheet.old ≡ length file.now }
    requires room { length file.now ≤ length pending.old }
    ensures refuses { result_err result ≡ code_or_numbering_refusal file.now }
    ensures tally { IfOk result (λ t. t ≡ tally file.now) }
    ensures sheet { MatchResult result (λ _. sheet.new ≡ with_peaks file.now (numbering file.now)) (λ _. sheet.new ≡ blanks file.now) }
{
    sheet.fill(BLANK);
    number_sheet(&Code::of(file)?, sheet, pending)
}

/// Checks a file of any length and content: numbers in the sheet the places that are reached, and answers how many they are and the largest peak;
/// or refuses the file by the first rule that is broken. The sheet and the pending memory may have any length.
pub fn check(
    file: &[u8],
    sheet: &mut [u16],
    pending: &mut [Pending],
) -> Result<(usize, u16), Refusal>
    ensures refuses { result_err result ≡ check_refusal file.now (length sheet.old) (length pending.old) }
    ensures tally { IfOk result (λ t. t ≡ tally file.now) }
    ensures sheet { sheet.new ≡ sheet_after file.now sheet.old (length pending.old) }
    ensures laws { CheckLaws file.now sheet.old (length pending.old) (result_err result) sheet.new }
{
    read(file)?;
    let size = file.len();
    if sheet.len() < size || pending.len() < size {
        return Err(Refusal {
            rule: Rule::MemoryShort,
            place: 0,
        });
    }
    fill_sheet(file, &mut sheet[0..size], pending)
}
