//! What a sheet says.
ghost use Rattle.std.specs.Prelude.{◌≡◌};
ghost use Rattle.verifier.specs.Numbering.{number, numbered};

/// The entry of a place without a number, as the form of a sheet has it.
pub(crate) const BLANK: u16 = 65_535;

/// What the sheet says of `place`; past its end it is blank.
pub fn entry_at(sheet: &[u16], place: usize) -> u16
    ensures { result ≡ number sheet.now place }
{
    sheet.get(place).copied().unwrap_or(BLANK)
}

/// Whether an entry is a number.
pub(crate) fn is_number(entry: u16) -> bool
    ensures { result ≡ numbered entry }
{
    entry <= 255
}
