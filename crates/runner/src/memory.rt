//! The memory that a run is lent.
ghost use Rattle.std.specs.Prelude.{◌≡◌, replicate};

use verifier::pending::Pending;

/// How many bytes a file has at most: for each there is an entry of the sheet and one of the pending memory.
pub(crate) const LARGEST: usize = 8_192;

/// How many units can be keyed.
pub(crate) const SLOTS: usize = 256;

/// How many cells a stack has.
pub(crate) const CELLS: usize = 2_048;

/// The memory of a check, the line of a label, and the cells of a stack. What they hold before a run does not matter.
/// They are of fixed size, as a console's memory is.
#[derive(Drop)]
pub struct Memory {
    pub(crate) sheet: [u16; LARGEST],
    pub(crate) pending: [Pending; LARGEST],
    pub(crate) line: [u16; SLOTS],
    pub(crate) cells: [u16; CELLS],
}

impl Memory {
    /// Memory that is 0 everywhere.
    pub fn new() -> Memory
        ensures sheet { result.sheet ≡ replicate 8192 0 }
        ensures pending { result.pending ≡ replicate 8192 (record { place = 0; number = 0 }) }
        ensures line { result.line ≡ replicate 256 0 }
        ensures cells { result.cells ≡ replicate 2048 0 }
    {
        Memory {
            sheet: [0; LARGEST],
            pending: [Pending {
                place: 0,
                number: 0,
            }; LARGEST],
            line: [0; SLOTS],
            cells: [0; CELLS],
        }
    }
}
