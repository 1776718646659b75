//! A program's simplest work over any host: writing back what waits.
ghost use Rattle.std.specs.Prelude.{◌≡◌, ◌<◌, Ok};
ghost use Rattle.host.specs.Host.{Echoed};

use crate::{Host, NO_ROOM};
use refusals::Refusal;

/// Writes the first waiting unit back and answers it, if one waits; refuses, and changes nothing, exactly where there is no room.
pub fn echo<H: Host>(host: &mut H) -> Result<Option<u16>, Refusal>
    ensures kept { H.kept host.old host.new }
    ensures units { Echoed (H.waiting host.old) (H.written host.old) (H.space host.old) result (H.waiting host.new) (H.written host.new) (H.space host.new) }
{
    if host.room() == 0 {
        return Err(NO_ROOM);
    }
    Ok(relay(host))
}

/// Writes the first waiting unit back and answers it, if one waits.
fn relay<H: Host>(host: &mut H) -> Option<u16>
    requires { 0 < H.space host.old }
    ensures kept { H.kept host.old host.new }
    ensures units { Echoed (H.waiting host.old) (H.written host.old) (H.space host.old) (Ok result) (H.waiting host.new) (H.written host.new) (H.space host.new) }
{
    let unit = host.take()?;
    // there is room, so the unit is not refused
    let _ = host.put(unit);
    Some(unit)
}
