//! What OUT writes of a value: the units of each output mode, and putting them on a host.
#![tactic(auto)]

ghost use Rattle.std.specs.Prelude.{◌≤◌};

mod decimal;
pub mod mode;
pub mod modes;
pub mod put;

/// How many units OUT writes at most: a minus and five digits.
const UNITS: usize = 6;

/// The units that OUT writes of a value: the first `count` of these. A text is `Copy`, which a vector of fixed capacity is not.
#[derive(Clone, Copy, Drop)]
pub struct Text {
    units: [u16; UNITS],
    count: usize,
    ghost within: { count ≤ 6 },
}
