//! The bytecode: the opcode tables, instructions taken apart, and the rules of a file's code.

#![tactic(auto)]

pub mod decode;
pub mod flow;
pub mod instruction;
pub mod opcodes;
pub mod places;
pub mod rules;
pub mod successors;
pub mod walk;
