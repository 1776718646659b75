//! Program files: the rules of their layout, and a reader over the bytes of one.

#![tactic(auto)]

mod bytes;
pub mod layout;
pub mod part;
pub mod reader;
pub mod refuse;
mod rules;
