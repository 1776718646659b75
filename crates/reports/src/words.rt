//! Units and bytes in hexadecimal digits, each after a space.
ghost use Rattle.std.specs.Prelude.{◌≡◌, ℕ, ◌++◌, List, IfOk, string_bytes, OnOk};
ghost use Rattle.hexadecimal.specs.Hex.{byte_digits, unit_digits};
ghost use Rattle.reports.specs.Words.{words};

use std::alloc::{AllocError, Global};

/// A number that is written in as many hexadecimal digits as it has room for.
pub(crate) trait Digits {
    ghost digits: { Self → List ℕ };

    /// Adds the number's digits.
    fn push_digits(self, text: &mut String) -> Result<(), AllocError>
        ensures { OnOk result (string_bytes text.new ≡ string_bytes text.old ++ digits self) };
}

impl Digits for u16 {
    ghost digits = { unit_digits };

    fn push_digits(self, text: &mut String) -> Result<(), AllocError> {
        hexadecimal::push_unit(text, self)
    }
}

impl Digits for u8 {
    ghost digits = { byte_digits };

    fn push_digits(self, text: &mut String) -> Result<(), AllocError> {
        hexadecimal::push_byte(text, self)
    }
}

/// The numbers in their order.
pub(crate) fn words<T: Digits + Copy>(heap: Global, numbers: &[T]) -> Result<String, AllocError>
    ensures { IfOk result (λ s. string_bytes s ≡ words T.digits numbers.now) }
{
    let mut text = String::new(heap);
    for number in numbers {
        text.push(' ')?;
        number.push_digits(&mut text)?;
    }
    Ok(text)
}
