//! The listing of a program file: its parts and its instructions, or why it is refused.

#![tactic(auto)]

mod code;
mod lines;
mod meanings;
mod program;
pub mod report;
mod text;
