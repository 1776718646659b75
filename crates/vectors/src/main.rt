//! Runs stored cases through the engine and prints a line for each: what `check` and `admit` answered, and how the runs went.
//!
//! It is a test program, whose lines are held to those that the reference prints of the same cases. So its functions are proved safe,
//! and that they end, and most of their contracts say no more. The stored form and the line stand at the top of reference/src/cases.rs.
//! Its cases are those that the reference's `choosecases 2026 20000 2000` writes, and the reference's `vectors` writes the lines.
#![tactic(auto)]

mod admission;
mod digest;
mod line;
mod memory;
mod on_label;
mod on_recorder;
mod stored;
mod words;

use crate::line::case_line;
use crate::stored::Stored;
use anyhow::anyhow;
use std::alloc::Global;
use std::{env, fs};

/// Prints the line of each case. A file that is cut ends it, after the lines of the whole cases.
fn print_lines(rt: &HostRuntime, bytes: &[u8]) -> anyhow::Result<()> {
    let heap: Global = rt.alloc();
    let Some(mut stored) = Stored::open(bytes) else {
        return Err(anyhow!("not a file of cases"));
    };
    // there are fewer cases than bytes
    for index in 0..bytes.len() {
        if stored.is_empty() {
            break;
        }
        let Some(case) = stored.next_case() else {
            return Err(anyhow!(format!(in heap; "case {index} is cut")?));
        };
        rt.println(case_line(heap, index, &case)?)?;
    }
    Ok(())
}

fn main(rt: HostRuntime) -> anyhow::Result<()> {
    let bytes = match env::args(&rt)?.nth(1) {
        Some(path) => fs::read(&rt, path.as_str())?,
        None => fs::read(&rt, "cases.bin")?,
    };
    print_lines(&rt, bytes.as_slice())
}
