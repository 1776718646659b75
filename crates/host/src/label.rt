//! A label of the display: a line of keyed units, and up to 96 units shown.
ghost use Rattle.std.specs.Prelude.{◌≡◌, [], length};
ghost use Rattle.host.specs.Host.{Keyed};
ghost use Rattle.host.specs.Label.{label_waiting, label_written, label_space, label_capacity, label_bounded, LabelKept, label_kept_refl, label_kept_trans};

use crate::{Host, NO_ROOM};
use arrayvec::ArrayVec;
use refusals::{Refusal, Rule};
use ring::Ring;

/// How many units a label shows at most.
const UNITS: usize = 96;

/// The refusal of a unit that is keyed on a full line.
pub const LINE_FULL: Refusal = Refusal {
    rule: Rule::LineFull,
    place: 0,
};

/// A line of keyed units that wait, and the units that are shown.
#[derive(Drop)]
pub struct Label<'a> {
    line: Ring<'a, u16>,
    shown: ArrayVec<u16, UNITS>,
}

impl<'a> Label<'a> {
    /// A label that shows nothing, whose keyed units wait in these slots.
    pub fn new(slots: &'a mut [u16]) -> Label<'a>
        ensures waiting { label_waiting result ≡ [] }
        ensures capacity { label_capacity result ≡ length slots.old }
        ensures written { label_written result ≡ [] }
        ensures space { label_space result ≡ 96 }
    {
        Label {
            line: Ring::new(slots),
            shown: ArrayVec::new(),
        }
    }

    /// Adds a unit to the waiting ones, or refuses it exactly where their line is full.
    pub fn key(&mut self, unit: u16) -> Result<(), Refusal>
        ensures waiting { Keyed (label_waiting self.old) (label_capacity self.old) unit result (label_waiting self.new) }
        ensures capacity { label_capacity self.new ≡ label_capacity self.old }
        ensures written { label_written self.new ≡ label_written self.old }
        ensures space { label_space self.new ≡ label_space self.old }
    {
        self.line.push(unit).map_err(|_| LINE_FULL)
    }

    /// The units written, the first one first.
    pub fn shown(&self) -> &[u16]
        ensures { result.now ≡ label_written self.now }
    {
        self.shown.as_slice()
    }
}

impl<'a> Host for Label<'a> {
    ghost waiting = { label_waiting };

    ghost written = { label_written };

    ghost space = { label_space };

    ghost bounded = { label_bounded };

    ghost kept = { LabelKept };

    ghost kept_refl = { label_kept_refl };

    ghost kept_trans = { label_kept_trans };

    fn take(&mut self) -> Option<u16> {
        self.line.pop()
    }

    fn put(&mut self, unit: u16) -> Result<(), Refusal> {
        self.shown.try_push(unit).map_err(|_| NO_ROOM)
    }

    fn room(&self) -> u16 {
        self.shown.remaining_capacity() as u16
    }
}
