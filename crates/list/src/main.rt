//! Lists the parts and the instructions of a program file, or says why it is refused.
#![tactic(auto)]

use files::contents;
use listing::report::listing;
use std::env;

/// The longest file, and one byte more: a file of which more is there is refused all the same.
const ENOUGH: u64 = 65_536;

fn main(rt: HostRuntime) -> anyhow::Result<()> {
    let file = match env::args(&rt)?.nth(1) {
        Some(path) => contents(&rt, path.as_str(), ENOUGH)?,
        None => contents(&rt, "program.ejvm", ENOUGH)?,
    };
    let text = listing(rt.alloc(), file.as_slice())?;
    rt.print(text)?;
    Ok(())
}
