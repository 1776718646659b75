//! The plain machine: what a run of a program does, instruction by instruction, and what a go on it answers.
#![tactic(auto)]

ghost use Rattle.machine.specs.Cases.{WorkedCases};

pub mod laws;
pub mod stop;

/// The worked cases of checks, runs, numbers and records, computed.
pub fn worked_cases()
    ensures { WorkedCases }
{}
