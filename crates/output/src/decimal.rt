//! Numbers in decimal.
ghost use Rattle.std.specs.Prelude.{◌≡◌, ◌≤◌, length};
ghost use Rattle.std.specs.Fmt.{signed_decimal};
ghost use Rattle.output.specs.Units.{units_of};

use crate::{Text, UNITS};
use itoa::Buffer;

/// A number as decimal digits without leading zeros, with a minus in front where it is below 0.
pub(crate) fn decimal(number: i16) -> Text
    ensures { units_of result ≡ signed_decimal number }
{
    let mut buffer = Buffer::new();
    widened(buffer.format(number).as_bytes())
}

/// These bytes, each as one unit.
fn widened(bytes: &[u8]) -> Text
    requires { length bytes.now ≤ 6 }
    ensures { units_of result ≡ bytes.now }
{
    let mut units = [0; UNITS];
    for (index, byte) in bytes.iter().enumerate() {
        units[index] = u16::from(*byte);
    }
    Text {
        units,
        count: bytes.len(),
    }
}
