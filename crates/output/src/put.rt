//! The units of a text, and putting them on a host.
ghost use Rattle.std.specs.Prelude.{◌≡◌, ◌+◌, ◌≤◌, ◌++◌, length};
ghost use Rattle.output.specs.Units.{units_of};

use crate::Text;
use host::Host;

impl Text {
    /// The units, the first one first.
    pub fn units(&self) -> &[u16]
        ensures units { result.now ≡ units_of self.now }
        ensures short { length result.now ≤ 6 }
    {
        &self.units[..self.count]
    }

    /// How many units there are.
    pub fn count(&self) -> u16
        ensures count { result ≡ length (units_of self.now) }
        ensures short { result ≤ 6 }
    {
        self.count as u16
    }

    /// Writes the units. Only for the crates above: there is room for them.
    pub fn put<H: Host>(&self, host: &mut H)
        requires room { length (units_of self.now) ≤ H.space host.old }
        ensures kept { H.kept host.old host.new }
        ensures waiting { H.waiting host.new ≡ H.waiting host.old }
        ensures written { H.written host.new ≡ H.written host.old ++ units_of self.now }
        ensures space { H.space host.old ≡ H.space host.new + length (units_of self.now) }
    {
        put_all(self.units(), host);
    }
}

/// Writes these units, for which there is room.
fn put_all<H: Host>(units: &[u16], host: &mut H)
    requires { length units.now ≤ H.space host.old }
    ensures kept { H.kept host.old host.new }
    ensures waiting { H.waiting host.new ≡ H.waiting host.old }
    ensures written { H.written host.new ≡ H.written host.old ++ units.now }
    ensures space { H.space host.old ≡ H.space host.new + length units.now }
{
    for unit in units {
        // there is room, so the unit is not refused
        let _ = host.put(*unit);
    }
}
