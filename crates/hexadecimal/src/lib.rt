//! Numbers in capital hexadecimal digits, added to a text.
#![tactic(auto)]

ghost use Rattle.std.specs.Prelude.{◌≡◌, ◌<◌, [], ◌∷◌, ◌++◌, string_bytes, OnOk};
ghost use Rattle.hexadecimal.specs.Hex.{hex, byte_digits, unit_digits};

use std::alloc::AllocError;

/// The capital hexadecimal digit of a number below 16.
fn digit_of(number: u8) -> char
    requires { number < 16 }
    ensures { result ≡ hex number }
{
    let Some(digit) = char::from_digit(u32::from(number), 16) else {
        unreachable()
    };
    digit.to_ascii_uppercase()
}

/// Adds the two digits of a byte. They are pushed one by one: `write!` by the library's `{:02X}` takes nearly four times as many of the
/// processor's instructions (docs/DECISIONS.md).
pub fn push_byte(text: &mut String, byte: u8) -> Result<(), AllocError>
    ensures { OnOk result (string_bytes text.new ≡ string_bytes text.old ++ byte_digits byte) }
{
    let (high, low) = (byte / 16, byte % 16);
    text.push(digit_of(high))?;
    text.push(digit_of(low))
}

/// Adds the four digits of a unit of sixteen bits.
pub fn push_unit(text: &mut String, unit: u16) -> Result<(), AllocError>
    ensures { OnOk result (string_bytes text.new ≡ string_bytes text.old ++ unit_digits unit) }
{
    let [high, low] = unit.to_be_bytes();
    push_byte(text, high)?;
    push_byte(text, low)
}
