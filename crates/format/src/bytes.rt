//! Numbers in a file's bytes, big-endian. A byte past the end reads as 0.
ghost use Rattle.std.specs.Prelude.{◌≡◌, ◌^◌, ◌<◌};
ghost use Rattle.format.specs.Layout.{byte, be16, be32};

/// The byte at `i`.
pub(crate) fn byte_at(file: &[u8], i: usize) -> u8
    ensures { result ≡ byte file.now i }
{
    file.get(i).copied().unwrap_or(0)
}

/// The number in the two bytes at `i`.
pub(crate) fn be16_at(file: &[u8], i: usize) -> u16
    requires { i < 2 ^ 40 }
    ensures { result ≡ be16 file.now i }
{
    u16::from_be_bytes([byte_at(file, i), byte_at(file, i + 1)])
}

/// The number in the four bytes at `i`.
pub(crate) fn be32_at(file: &[u8], i: usize) -> u32
    requires { i < 2 ^ 40 }
    ensures { result ≡ be32 file.now i }
{
    u32::from_be_bytes([
        byte_at(file, i),
        byte_at(file, i + 1),
        byte_at(file, i + 2),
        byte_at(file, i + 3),
    ])
}
