//! Names and messages as text that stays on its line.
ghost use Rattle.std.specs.Prelude.{◌≡◌, ◌++◌, IfOk, string_bytes, OnOk};
ghost use Rattle.listing.specs.Text.{escape, shown_unit, shown_text};

use hexadecimal::push_unit;
use std::alloc::{AllocError, Global};

/// Adds the escape of a unit: a backslash, a u and four digits.
fn push_escape(text: &mut String, unit: u16) -> Result<(), AllocError>
    ensures { OnOk result (string_bytes text.new ≡ string_bytes text.old ++ escape unit) }
{
    text.push_str("\\u")?;
    push_unit(text, unit)
}

/// Adds a unit: as it is where it is printable ASCII and no backslash, else by its escape.
fn push_shown(text: &mut String, unit: u16) -> Result<(), AllocError>
    ensures { OnOk result (string_bytes text.new ≡ string_bytes text.old ++ shown_unit unit) }
{
    if unit >= 0x20 && unit <= 0x7E && unit != 0x5C {
        text.push(unit as u8 as char)
    } else {
        push_escape(text, unit)
    }
}

/// The text of UTF-16BE bytes. An odd last byte is left out.
#[tactic(auto, using(crate::proofs::Texts::pairs_more, crate::proofs::Texts::pairs_all))]
pub(crate) fn shown(heap: Global, bytes: &[u8]) -> Result<String, AllocError>
    ensures { IfOk result (λ s. string_bytes s ≡ shown_text bytes.now) }
{
    let mut text = String::new(heap);
    let (units, _) = bytes.as_chunks::<2>();
    for unit in units {
        push_shown(&mut text, u16::from_be_bytes(*unit))?;
    }
    Ok(text)
}
