//! The files that the programs read.
#![tactic(auto)]

ghost use Rattle.std.specs.Prelude.{◌≡◌, take, IfOk, IfSome, vec_items};

use std::alloc::Global;
use std::fs::File;
use std::io;
use std::io::{ErrorKind, Read};

/// The first bytes that a reader gives, as many as are enough, or all if they are fewer.
pub fn first_bytes<R: Read + Drop>(heap: Global, reader: R, enough: u64) -> io::Result<Vec<u8>>
    ensures { IfOk result (λ bytes. IfSome (R.remaining reader) (λ given. vec_items bytes ≡ take enough given)) }
{
    let mut bytes = Vec::new(heap);
    reader.take(enough).read_to_end(&mut bytes)?;
    Ok(bytes)
}

/// The bytes of the file at the path, as far as they matter. A missing file is empty.
/// What a file gives no contract can say.
pub fn contents(rt: &HostRuntime, path: &str, enough: u64) -> io::Result<Vec<u8>> {
    match File::open(rt, path) {
        Ok(file) => first_bytes(rt.alloc(), file, enough),
        Err(error) if error.kind() == ErrorKind::NotFound => Ok(Vec::new(rt.alloc())),
        Err(error) => Err(error),
    }
}
