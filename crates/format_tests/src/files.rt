//! The files that the tests read, and what a test says of a refusal.
ghost use Rattle.std.specs.Prelude.{◌<◌};

use format::reader::read;
use refusals::{Refusal, Rule};
use std::alloc::{AllocError, Global};
use std::process::Abort;
use std::test::Fail;

/// A program A with one method, main: IN, OUT, RETURN.
pub(crate) const ONE: [u8; 39] =
    *b"\x65\x4A\x56\x4D\x10\x02\x00\x00\x00\x25\x01\x00\x00\x00\x00\x00\x17\x00\x00\x00\x00\x00\x1A\xF0\xF1\xB1\x08\x00\x03\0m\0a\0i\0n\0A";

/// A program AB with two methods, m (one local) and f (a parameter and two locals), the constant -5, and the messages "" and "Hi".
///
/// The entries stand at 13 and 23, the constant at 33, the code at 35 and 38, the debug blocks at 41 and 46, the messages at 51 and 53, the program name at 59.
pub(crate) const TWO: [u8; 63] =
    *b"\x65\x4A\x56\x4D\x10\x04\x00\x00\x00\x3B\x02\x01\x02\x00\x00\x00\x23\x00\x01\x00\x00\x00\x29\x00\x00\x00\x26\x01\x02\x00\x00\x00\x2E\xFF\xFB\xF0\xF1\xB1\x15\x00\xAC\x02\x00\x03\0m\x02\x00\x03\0f\x00\x00\x00\x04\0H\0i\0A\0B";

/// The file of two methods, with one byte changed.
pub(crate) fn changed(at: usize, byte: u8) -> [u8; 63]
    requires { at < 63 }
{
    let mut file = TWO;
    file[at] = byte;
    file
}

/// A file of one method and one message of `size` bytes, below 512.
pub(crate) fn with_message(heap: Global, size: u16) -> Result<Vec<u8>, AllocError>
    requires { size < 512 }
{
    let mut file = Vec::from_slice(heap, &ONE[0..37])?;
    file[12] = 1;
    let [high, low] = (37 + 2 + size).to_be_bytes();
    file[8] = high;
    file[9] = low;
    file.extend_from_slice(&size.to_be_bytes())?;
    for _ in 0..size {
        file.push(0)?;
    }
    file.extend_from_slice(b"\0A")?;
    Ok(file)
}

/// The file is accepted.
pub(crate) fn accepted(file: &[u8]) -> Result<(), Fail> {
    match read(file) {
        Ok(_) => Ok(()),
        Err(_) => Err(Fail::new("refused")),
    }
}

/// The file is refused by the rule at the place.
pub(crate) fn refused(rt: &impl Abort, file: &[u8], rule: Rule, place: usize) -> Result<(), Fail> {
    match read(file) {
        Ok(_) => Err(Fail::new("accepted")),
        Err(refusal) => {
            assert_eq!(rt; refusal, Refusal { rule, place });
            Ok(())
        },
    }
}
