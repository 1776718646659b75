//! The output modes.
ghost use Rattle.std.specs.Prelude.{◌≡◌, min};
ghost use Rattle.output.specs.Mode.{mode_number};

/// How OUT writes a value.
#[derive(Clone, Copy, Debug, PartialEq, Eq, Drop)]
pub enum Mode {
    /// The pattern as one unit.
    Pattern,
    /// The number that the pattern means, in decimal.
    Decimal,
    /// A tenth of that number, cut toward zero, in decimal.
    Tenth,
}

/// The mode of a number: 0 is the pattern, 1 the decimal, and any other the tenth.
impl From<u8> for Mode {
    ghost from_gives = { λ number mode. mode_number mode ≡ min number 2 };

    fn from(number: u8) -> Mode {
        match number {
            0 => Mode::Pattern,
            1 => Mode::Decimal,
            _ => Mode::Tenth,
        }
    }
}
