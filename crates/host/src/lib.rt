//! Hosts: what a program takes its units from and puts its units to.
#![tactic(auto)]

ghost use Rattle.std.specs.Prelude.{◌≡◌, ℕ, ◌≤◌, List};
ghost use Rattle.host.specs.Host.{Added};
ghost use Rattle.ring.specs.Ring.{Popped};

use refusals::{Refusal, Rule};

pub mod echo;
pub mod label;
pub mod recorder;

/// The refusal of a unit that is put where there is no room.
pub const NO_ROOM: Refusal = Refusal {
    rule: Rule::NoRoom,
    place: 0,
};

/// A line of units that wait to be taken, a list of units that were put, and room for more of them.
pub trait Host {
    /// The units that wait to be taken, the first one first.
    ghost waiting: { Self → List ℕ };

    /// The units that were put, the first one first.
    ghost written: { Self → List ℕ };

    /// How many more units can be put.
    ghost space: { Self → ℕ };

    ghost bounded: { (host : Self) → space host ≤ 65535 };

    /// What a host before some calls and the same host after them have in common, besides the lists and the room:
    /// so a recorder says what it does to its memory.
    ghost kept: { Self → Self → Type 0 };

    ghost kept_refl: { (host : Self) → kept host host };

    ghost kept_trans: { (a b c : Self) → kept a b → kept b c → kept a c };

    /// Takes the first waiting unit, or answers nothing exactly where none waits.
    fn take(&mut self) -> Option<u16>
        ensures kept { kept self.old self.new }
        ensures waiting { Popped (waiting self.old) result (waiting self.new) }
        ensures written { written self.new ≡ written self.old }
        ensures space { space self.new ≡ space self.old };

    /// Adds a unit at the end of those written, or refuses it exactly where there is no room.
    fn put(&mut self, unit: u16) -> Result<(), Refusal>
        ensures kept { kept self.old self.new }
        ensures waiting { waiting self.new ≡ waiting self.old }
        ensures written { Added (written self.old) (space self.old) unit result (written self.new) (space self.new) };

    /// How many more units can be put, 0 to 65,535.
    fn room(&self) -> u16
        ensures { result ≡ space self.now };
}
