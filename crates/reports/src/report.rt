//! The whole reports.
ghost use Rattle.std.specs.Prelude.{◌≡◌, IfOk, string_bytes};
ghost use Rattle.reports.specs.Words.{run_text, record_text, refusal_text};

use crate::words::words;
use machine::stop::Stop;
use refusals::Refusal;
use std::alloc::{AllocError, Global};

/// The report of a go on a label: its stop, its count, and the units that the label shows.
pub fn run_report(heap: Global, stop: Stop, count: u32, units: &[u16]) -> Result<String, AllocError>
    ensures { IfOk result (λ s. string_bytes s ≡ run_text stop count units.now) }
{
    let units = words(heap, units)?;
    format!(in heap; "ejvm 1\nstop {stop}\ncount {count}\nunits{units}\n")
}

/// The report of a go on a recorder: its stop, its count, and the recorder's memory. One function for this and the report above would
/// take the word of the last line besides, and be no shorter.
pub fn record_report(
    heap: Global,
    stop: Stop,
    count: u32,
    memory: &[u8],
) -> Result<String, AllocError>
    ensures { IfOk result (λ s. string_bytes s ≡ record_text stop count memory.now) }
{
    let memory = words(heap, memory)?;
    format!(in heap; "ejvm 1\nstop {stop}\ncount {count}\nmemory{memory}\n")
}

/// The report of a file that is refused: the refusal's number and place.
pub fn refusal_report(heap: Global, refusal: Refusal) -> Result<String, AllocError>
    ensures { IfOk result (λ s. string_bytes s ≡ refusal_text refusal) }
{
    format!(in heap; "ejvm 1\n{refusal}\n")
}
