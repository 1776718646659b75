//! What happens in a row on a label.

/// A go with its fuel, or a unit that is keyed.
#[derive(Clone, Copy)]
pub enum Event {
    Go(u32),
    Key(u16),
}
