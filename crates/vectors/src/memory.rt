//! The memory that a case lends, as it is before.
use std::alloc::{AllocError, Global};
use verifier::pending::Pending;

/// Items of memory, the first one this, each later one made of the one before.
fn filled<T: Copy, F: Fn(T) -> T>(
    heap: Global,
    count: usize,
    first: T,
    next: F,
) -> Result<Vec<T>, AllocError>
    requires { F.IsAlwaysCallable next }
{
    let mut items = Vec::with_capacity(heap, count)?;
    let mut item = first;
    for _ in 0..count {
        items.push(item)?;
        item = next(item);
    }
    Ok(items)
}

/// Entries of a sheet or cells of a stack: 3, and 7 more each.
pub(crate) fn filled_units(heap: Global, count: usize) -> Result<Vec<u16>, AllocError> {
    filled(heap, count, 3, |unit: u16| unit.wrapping_add(7))
}

/// Bytes of a recorder's memory, likewise.
pub(crate) fn filled_bytes(heap: Global, count: usize) -> Result<Vec<u8>, AllocError> {
    filled(heap, count, 3, |byte: u8| byte.wrapping_add(7))
}

/// Entries of the pending memory. What they are does not matter.
pub(crate) fn pending(heap: Global, count: usize) -> Result<Vec<Pending>, AllocError> {
    let none = Pending {
        place: 0,
        number: 0,
    };
    vec![in heap; none; count]
}

/// Slots of a line. What they are does not matter.
pub(crate) fn slots(heap: Global, count: usize) -> Result<Vec<u16>, AllocError> {
    vec![in heap; 0; count]
}
