//! A recorder: a host that writes its units into lent memory.
ghost use Rattle.std.specs.Prelude.{◌≡◌, ◌+◌, ◌/◌, ◌%◌, ◌<◌, ◌≤◌, [], ◌∷◌, ◌++◌, length, slice_set};
ghost use Rattle.host.specs.Record.{units_of, room_in, recorded};

use crate::{Host, NO_ROOM};
use refusals::Refusal;

/// The first byte of a record.
const VERSION: u8 = 1;

/// The bytes before the first unit: the version, and the count of the bytes that follow.
const HEADER: usize = 3;

/// How many units a record has at most: the count of their bytes has sixteen bits.
const MOST_UNITS: usize = 32_767;

/// A record of `count` units in lent memory, whose waiting units are byte pairs.
///
/// The memory begins with the version, then the count of the bytes that follow in two bytes, then two bytes a unit.
/// All numbers are big-endian. Memory that is too short for the three bytes of the header stays as it is.
/// The memory is lent and its layout is fixed, so the count stands beside it.
#[derive(Drop)]
pub struct Recorder<'m, 'k> {
    memory: &'m mut [u8],
    keys: &'k [u8],
    count: usize,
    ghost fits: { count ≤ room_in (length memory.now) },
}

/// Writes a number into the two bytes at `at`, big-endian.
fn write_be16(memory: &mut [u8], at: usize, value: u16)
    requires { at + 1 < length memory.old }
    ensures { memory.new ≡ slice_set (slice_set memory.old at (value / 256)) (at + 1) (value % 256) }
{
    memory[at..at + 2].copy_from_slice(&value.to_be_bytes());
}

/// Writes the header of a record with no units, where there is room for it.
fn write_header(memory: &mut [u8])
    ensures { memory.new ≡ recorded memory.old [] }
{
    if let Some(header) = memory.first_chunk_mut::<HEADER>() {
        *header = [VERSION, 0, 0];
    }
}

impl<'m, 'k> Recorder<'m, 'k> {
    ghost use Rattle.host.specs.Recorder.{Records, recorder_waiting, recorder_written, recorder_space, RecorderKept};

    /// Starts a record with no units in this memory.
    pub fn open(memory: &'m mut [u8], keys: &'k [u8]) -> Recorder<'m, 'k>
        ensures lent { result.memory.ghost_name ≡ memory.entry.ghost_name }
        ensures memory { result.memory.now ≡ recorded memory.old [] }
        ensures records { Records memory.old result }
        ensures waiting { recorder_waiting result ≡ units_of keys.now }
        ensures written { recorder_written result ≡ [] }
        ensures space { recorder_space result ≡ room_in (length memory.old) }
    {
        write_header(memory);
        Recorder {
            memory,
            keys,
            count: 0,
        }
    }

    /// Writes a unit after the others, and counts its bytes.
    fn append(&mut self, unit: u16)
        requires { 0 < recorder_space self.old }
        ensures kept { RecorderKept self.old self.new }
        ensures waiting { recorder_waiting self.new ≡ recorder_waiting self.old }
        ensures written { recorder_written self.new ≡ recorder_written self.old ++ unit ∷ [] }
        ensures space { recorder_space self.old ≡ recorder_space self.new + 1 }
    {
        let size = 2 * self.count;
        write_be16(self.memory, HEADER + size, unit);
        write_be16(self.memory, 1, (size + 2) as u16);
        self.count += 1;
    }
}

impl<'m, 'k> Host for Recorder<'m, 'k> {
    ghost use Rattle.host.specs.Recorder.{recorder_waiting, recorder_written, recorder_space, recorder_bounded, RecorderKept, recorder_kept_refl, recorder_kept_trans};

    ghost waiting = { recorder_waiting };

    ghost written = { recorder_written };

    ghost space = { recorder_space };

    ghost bounded = { recorder_bounded };

    ghost kept = { RecorderKept };

    ghost kept_refl = { recorder_kept_refl };

    ghost kept_trans = { recorder_kept_trans };

    fn take(&mut self) -> Option<u16> {
        let (unit, rest) = self.keys.split_first_chunk()?;
        self.keys = rest;
        Some(u16::from_be_bytes(*unit))
    }

    fn put(&mut self, unit: u16) -> Result<(), Refusal> {
        if self.room() == 0 {
            return Err(NO_ROOM);
        }
        self.append(unit);
        Ok(())
    }

    fn room(&self) -> u16 {
        let units = (self.memory.len().saturating_sub(HEADER) / 2).min(MOST_UNITS);
        (units - self.count) as u16
    }
}
