//! A program that runs the file in the folder where it is.
use crate::keys::USED;
use crate::memory::{LARGEST, Memory};
use files::contents;
use std::alloc::{AllocError, Global};

/// Prints what is told of `program.ejvm`, run with the keys in `keys.bin`. A byte more than the largest file has is read:
/// of a larger one no more is told.
pub fn print_told<F>(rt: &HostRuntime, tell: F) -> anyhow::Result<()>
where
    F: FnOnce(Global, &[u8], &[u8], &mut Memory) -> Result<String, AllocError>,
    requires { F.IsAlwaysCallable tell }
{
    let file = contents(rt, "program.ejvm", LARGEST as u64 + 1)?;
    let keys = contents(rt, "keys.bin", USED as u64)?;
    let mut memory = Memory::new();
    let text = tell(rt.alloc(), file.as_slice(), keys.as_slice(), &mut memory)?;
    rt.print(text)?;
    Ok(())
}
