//! A file run on a recorder.
ghost use Rattle.std.specs.Prelude.{◌≡◌, IfOk, string_bytes};
ghost use Rattle.host.specs.Recorder.{recorded};
ghost use Rattle.verifier.specs.Numbering.{Admitted as IsAdmitted};
ghost use Rattle.runner.specs.Texts.{key_units, new_host, first_go, recorded_text, recording_text};

use crate::first_go::first_go;
use crate::keys::used;
use crate::memory::{CELLS, Memory, SLOTS};
use crate::telling::{Telling, program_text};
use host::recorder::Recorder;
use machine::stop::Stop;
use reports::report::record_report;
use std::alloc::{AllocError, Global};
use verifier::admit::Admitted;

/// How many bytes the recorder is lent: the three of a record's header, and two for each of 96 units.
const BYTES: usize = 195;

/// The stop and the count of the first go on a recorder with these keys and this memory.
fn record(
    admitted: Admitted<'_, '_>,
    keys: &[u8],
    cells: &mut [u16; CELLS],
    bytes: &mut [u8; BYTES],
) -> (Stop, u32)
    requires admitted { IsAdmitted admitted.file.now admitted.sheet.now }
    ensures stop { result.0 ≡ (first_go admitted.entry.file.now admitted.entry.sheet.now (new_host (key_units keys.now))).stop }
    ensures count { result.1 ≡ (first_go admitted.entry.file.now admitted.entry.sheet.now (new_host (key_units keys.now))).counted }
    ensures bytes { bytes.new ≡ recorded bytes.old (first_go admitted.entry.file.now admitted.entry.sheet.now (new_host (key_units keys.now))).host.written }
{
    first_go(admitted, cells, &mut Recorder::open(bytes, used(keys)))
}

/// Tells the recorder's memory.
struct OnRecorder;

impl Telling for OnRecorder {
    ghost told = { recorded_text };

    fn admitted_text(
        heap: Global,
        admitted: Admitted<'_, '_>,
        keys: &[u8],
        _line: &mut [u16; SLOTS],
        cells: &mut [u16; CELLS],
    ) -> Result<String, AllocError> {
        let mut bytes = [0; BYTES];
        let (stop, count) = record(admitted, keys, cells, &mut bytes);
        record_report(heap, stop, count, &bytes)
    }
}

/// What the program `record` prints of a file and the bytes of its keys, each of any length and content.
pub fn record_text(
    heap: Global,
    file: &[u8],
    keys: &[u8],
    memory: &mut Memory,
) -> Result<String, AllocError>
    ensures { IfOk result (λ s. string_bytes s ≡ recording_text file.now keys.now) }
{
    program_text::<OnRecorder>(heap, file, keys, memory)
}
