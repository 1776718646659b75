//! What the programs print of a run, or of a file that is refused.

#![tactic(auto)]

pub mod report;
mod words;
