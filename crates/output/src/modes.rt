//! What OUT writes in each output mode.
ghost use Rattle.std.specs.Prelude.{◌≡◌};
ghost use Rattle.output.specs.Mode.{mode_number};
ghost use Rattle.output.specs.Text.{text as text_of};
ghost use Rattle.output.specs.Units.{units_of};

use crate::Text;
use crate::decimal::decimal;
use crate::mode::Mode;

#[tactic(auto, using(crate::proofs::Decimals::laws))]
impl Mode {
    /// What OUT writes of a value in this mode.
    pub fn text(self, value: u16) -> Text
        ensures units { units_of result ≡ text_of (mode_number self) value }
    {
        let number = value.cast_signed();
        match self {
            Mode::Pattern => Text {
                units: [value, 0, 0, 0, 0, 0],
                count: 1,
            },
            Mode::Decimal => decimal(number),
            Mode::Tenth => decimal(number / 10),
        }
    }
}

/// What OUT writes of a value: in mode 0 the pattern as one unit, in mode 1 its number in decimal,
/// in any other mode a tenth of the number, cut toward zero, in decimal.
pub fn text(mode: u8, value: u16) -> Text
    ensures units { units_of result ≡ text_of mode value }
{
    Mode::from(mode).text(value)
}
