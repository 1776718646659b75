//! A run on a recorder.
ghost use Rattle.std.specs.Prelude.{◌≡◌};
ghost use Rattle.verifier.specs.Numbering.{Admitted as IsAdmitted};

use crate::digest::digest_of_bytes;
use crate::memory::{filled_bytes, filled_units};
use crate::on_label::FUEL;
use crate::stored::Case;
use crate::words::stop_word;
use host::Host;
use host::recorder::Recorder;
use machine::stop::Stop;
use run::run::Run;
use std::alloc::{AllocError, Global};
use verifier::admit::Admitted;

/// What is told of a go on a recorder, besides its memory: the stop, how many instructions it did, and how many units it wrote.
#[derive(Clone, Copy)]
struct Gone {
    stop: Stop,
    count: u32,
    written: u16,
}

/// Goes on a recorder over this memory.
fn go(admitted: Admitted<'_, '_>, cells: &mut [u16], memory: &mut [u8], keys: &[u8]) -> Gone
    requires { IsAdmitted admitted.file.now admitted.sheet.now }
{
    let mut recorder = Recorder::open(memory, keys);
    let room = recorder.room();
    let mut run = Run::start(admitted, cells);
    let (stop, count) = run.go(&mut recorder, FUEL);
    Gone {
        stop,
        count,
        written: room.saturating_sub(recorder.room()),
    }
}

/// The words of one go on a recorder with all keys.
pub(crate) fn recorded(
    heap: Global,
    admitted: Admitted<'_, '_>,
    case: &Case<'_>,
) -> Result<String, AllocError>
    requires { IsAdmitted admitted.file.now admitted.sheet.now }
{
    let mut cells = filled_units(heap, case.cells)?;
    let mut memory = filled_bytes(heap, case.memory)?;
    let gone = go(
        admitted,
        cells.as_mut_slice(),
        memory.as_mut_slice(),
        case.keys,
    );
    let stop = stop_word(heap, gone.stop)?;
    let count = gone.count;
    let written = gone.written;
    let digest = digest_of_bytes(memory.as_slice());
    format!(in heap; "{stop} {count} {written} {digest:08X}")
}
