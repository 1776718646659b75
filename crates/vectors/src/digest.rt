//! Digests: 32-bit FNV-1a.

/// The digest of no bytes.
const BASIS: u32 = 0x811C_9DC5;

const PRIME: u32 = 0x0100_0193;

/// The digest of some bytes and one more, from theirs.
fn with_byte(digest: u32, byte: u8) -> u32 {
    (digest ^ byte as u32).wrapping_mul(PRIME)
}

/// The digest of bytes.
pub(crate) fn digest_of_bytes(bytes: &[u8]) -> u32 {
    bytes
        .iter()
        .fold(BASIS, |digest, byte| with_byte(digest, *byte))
}

/// The digest of a sheet: of its entries, each as two bytes, the high one first.
pub(crate) fn digest_of_sheet(sheet: &[u16]) -> u32 {
    sheet.iter().fold(BASIS, |digest, entry| {
        let [high, low] = entry.to_be_bytes();
        with_byte(with_byte(digest, high), low)
    })
}
