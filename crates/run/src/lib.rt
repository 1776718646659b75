//! A run of a program on lent cells: its start, and its gos.

#![tactic(auto)]

mod calls;
mod ends;
mod execute;
mod fetch;
mod go;
mod interpreter;
mod jumps;
mod operands;
mod room;
pub mod run;
mod start;
mod step;
mod units;
mod variables;
