//! What waits in the worklist.

/// A place to go on from, with its number.
#[derive(Clone, Copy, PartialEq, Eq, Debug)]
pub struct Pending {
    pub place: u16,
    pub number: u16,
}
