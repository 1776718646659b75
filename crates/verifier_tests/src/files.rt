//! Files of one method, and what a test says of check.
use refusals::{Refusal, Rule};
use std::alloc::{AllocError, Global};
use std::process::Abort;
use std::test::Fail;
use verifier::check::check as check_file;
use verifier::pending::Pending;

/// The blank entry.
pub(crate) const BLANK: u16 = 65_535;

/// The file of a program A with one method, main, that has this code of at most 1,000 bytes. It begins at 23.
pub(crate) fn file_of(heap: Global, code: &[u8]) -> Result<Vec<u8>, AllocError> {
    let size = code.len().min(1_000) as u16;
    let [name_high, name_low] = (34 + size).to_be_bytes();
    let [block_high, block_low] = (23 + size).to_be_bytes();
    let [high, low] = size.to_be_bytes();
    let mut file = Vec::from_slice(heap, b"\x65\x4A\x56\x4D\x10\x02\0\0")?;
    file.extend_from_slice(&[name_high, name_low, 1, 0, 0, 0, 0, 0, 23, 0, 0, 0, 0])?;
    file.extend_from_slice(&[block_high, block_low])?;
    file.extend_from_slice(code)?;
    file.extend_from_slice(&[8, high, low])?;
    file.extend_from_slice(b"\0m\0a\0i\0n\0A")?;
    Ok(file)
}

/// The file of a program A with these methods, each with one piece of code and the name m. The code begins at 13 + 10 times their number.
pub(crate) fn file_of_methods(heap: Global, codes: &[&[u8]]) -> Result<Vec<u8>, AllocError> {
    let methods = codes.len().min(255) as u8;
    let tables = 13 + 10 * methods as u16;
    let mut size: u16 = 0;
    for code in codes {
        size = size.wrapping_add(code.len().min(1_000) as u16);
    }
    let mut file = Vec::from_slice(heap, b"\x65\x4A\x56\x4D\x10\x02\0\0")?;
    let name = tables.wrapping_add(size).wrapping_add(5 * methods as u16);
    file.extend_from_slice(&name.to_be_bytes())?;
    file.extend_from_slice(&[methods, 0, 0])?;
    let mut at = tables;
    let mut block = tables.wrapping_add(size);
    for code in codes {
        file.extend_from_slice(b"\0\0")?;
        file.extend_from_slice(&at.to_be_bytes())?;
        file.extend_from_slice(b"\0\0\0\0")?;
        file.extend_from_slice(&block.to_be_bytes())?;
        at = at.wrapping_add(code.len().min(1_000) as u16);
        block = block.wrapping_add(5);
    }
    for code in codes {
        file.extend_from_slice(*code)?;
    }
    for code in codes {
        let [high, low] = (code.len().min(1_000) as u16).to_be_bytes();
        file.extend_from_slice(&[2, high, low, 0, b'm'])?;
    }
    file.extend_from_slice(b"\0A")?;
    Ok(file)
}

/// A sheet of sevens, two entries longer than the file.
pub(crate) fn sevens(heap: Global, file: &[u8]) -> Result<Vec<u16>, AllocError> {
    let sheet = vec![in heap; 7u16; file.len().saturating_add(2)]?;
    Ok(sheet)
}

/// Check accepts the file with this count and peak. Answers the sheet, which was two entries longer than the file.
pub(crate) fn accepted(
    rt: &impl Abort,
    heap: Global,
    file: &[u8],
    count: usize,
    peak: u16,
) -> Result<Vec<u16>, Fail> {
    let mut sheet = sevens(heap, file)?;
    let mut pending = vec![in heap; Pending {
        place: 0,
        number: 0
    }; file.len()]?;
    match check_file(file, sheet.as_mut_slice(), pending.as_mut_slice()) {
        Ok((places, largest)) => {
            assert_eq!(rt; places, count);
            assert_eq!(rt; largest, peak);
        }
        Err(_) => return Err(Fail::new("refused")),
    }
    assert_eq!(rt; sheet.get(file.len()).copied(), Some(7));
    assert_eq!(rt; sheet.get(file.len().saturating_add(1)).copied(), Some(7));
    Ok(sheet)
}

/// Check refuses the file by this rule at this place, blanks the sheet as far as the file goes and leaves the two entries past it.
pub(crate) fn refused(
    rt: &impl Abort,
    heap: Global,
    file: &[u8],
    rule: Rule,
    place: usize,
) -> Result<(), Fail> {
    let mut sheet = sevens(heap, file)?;
    let mut pending = vec![in heap; Pending {
        place: 0,
        number: 0
    }; file.len()]?;
    match check_file(file, sheet.as_mut_slice(), pending.as_mut_slice()) {
        Ok(_) => return Err(Fail::new("accepted")),
        Err(refusal) => assert_eq!(rt; refusal, Refusal { rule, place }),
    }
    for (i, entry) in sheet.as_slice().iter().enumerate() {
        let left = if i < file.len() { BLANK } else { 7 };
        assert_eq!(rt; *entry, left);
    }
    Ok(())
}
