//! A program file run with keys, on a label or on a recorder, and told as text.

#![tactic(auto)]

mod checking;
mod first_go;
mod keys;
pub mod memory;
pub mod on_label;
pub mod on_recorder;
pub mod program;
mod telling;
