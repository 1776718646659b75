//! Where control goes on from an instruction.

/// The places after an instruction: none, one, or the target of a jump and the next instruction. These are the three cases that there are; a
/// pair of Options would have a fourth, and a list of at most two places would need a count beside them.
#[derive(Clone, Copy, PartialEq, Eq, Debug)]
pub enum Successors {
    Nowhere,
    One(usize),
    Two(usize, usize),
}
