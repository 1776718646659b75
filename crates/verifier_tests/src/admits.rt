//! Sheets that admit accepts and refuses.
use crate::files::{BLANK, accepted, file_of};
use refusals::{Refusal, Rule};
use std::process::Abort;
use std::test::Fail;
use verifier::admit::admit;

/// Admit accepts the file with the sheet.
fn admitted(file: &[u8], sheet: &[u16]) -> Result<(), Fail> {
    match admit(file, sheet) {
        Ok(_) => Ok(()),
        Err(_) => Err(Fail::new("refused")),
    }
}

/// Admit refuses the file with the sheet by this rule at this place.
fn turned_down(
    rt: &impl Abort,
    file: &[u8],
    sheet: &[u16],
    rule: Rule,
    place: usize,
) -> Result<(), Fail> {
    match admit(file, sheet) {
        Ok(_) => Err(Fail::new("admitted")),
        Err(refusal) => {
            assert_eq!(rt; refusal, Refusal { rule, place });
            Ok(())
        },
    }
}

#[test]
fn the_sheet_of_check(rt: HostRuntime) -> Result<(), Fail> {
    let heap = rt.alloc();
    let file = file_of(heap, b"\xB1\x57")?;
    let mut sheet = accepted(&rt, heap, file.as_slice(), 1, 0)?;
    admitted(file.as_slice(), sheet.as_slice())?;
    assert!(rt; sheet.len() == 40);
    turned_down(
        &rt,
        file.as_slice(),
        &sheet.as_slice()[0..37],
        Rule::MemoryShort,
        0,
    )?;
    sheet[24] = 1;
    turned_down(&rt, file.as_slice(), sheet.as_slice(), Rule::BadNumber, 24)?;
    sheet[24] = 256;
    turned_down(&rt, file.as_slice(), sheet.as_slice(), Rule::BadNumber, 24)?;
    sheet[24] = BLANK;
    sheet[23] = BLANK;
    turned_down(&rt, file.as_slice(), sheet.as_slice(), Rule::BadNumber, 23)?;
    sheet[23] = 0;
    sheet[13] = 1;
    turned_down(&rt, file.as_slice(), sheet.as_slice(), Rule::BadPeak, 13)?;
    sheet[13] = 0;
    sheet[0] = 5;
    admitted(file.as_slice(), sheet.as_slice())
}

#[test]
fn a_place_that_is_not_reached_but_numbered(rt: HostRuntime) -> Result<(), Fail> {
    let heap = rt.alloc();
    let file = file_of(heap, b"\xB1\x00\xB1")?;
    let mut sheet = accepted(&rt, heap, file.as_slice(), 1, 0)?;
    assert!(rt; sheet.len() == 41);
    sheet[24] = 5;
    turned_down(&rt, file.as_slice(), sheet.as_slice(), Rule::BadNumber, 24)?;
    sheet[25] = 5;
    turned_down(&rt, file.as_slice(), sheet.as_slice(), Rule::BadPeak, 13)?;
    sheet[13] = 5;
    admitted(file.as_slice(), sheet.as_slice())
}
