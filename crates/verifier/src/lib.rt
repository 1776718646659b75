//! The verifier: it numbers each place of a file with the depth of the operand stack there, and holds a sheet of such numbers to their rule.
#![tactic(auto)]

ghost use Rattle.verifier.specs.Cases.{WorkedCases};

pub mod admit;
pub mod check;
mod code;
mod fill;
mod judge;
mod method_peak;
pub mod pending;
mod point;
pub mod sheet;
mod worklist;

/// Worked cases, computed.
pub fn worked_cases()
    ensures { WorkedCases }
{}
