//! The words of a line.
use machine::stop::{End, Stop};
use std::alloc::{AllocError, Global};

/// Why a go stopped, as the stop is told, but in one word.
pub(crate) fn stop_word(heap: Global, stop: Stop) -> Result<String, AllocError> {
    match stop {
        Stop::Ended(End::Value(bits)) => {
            let value = bits.cast_signed();
            format!(in heap; "value:{value}")
        }
        Stop::Ended(End::Error(message)) => format!(in heap; "error:{message}"),
        _ => format!(in heap; "{stop}"),
    }
}

/// Units without spaces, or a hyphen if there is none.
pub(crate) fn units_word(heap: Global, units: &[u16]) -> Result<String, AllocError> {
    let mut text = String::new(heap);
    if units.is_empty() {
        text.push('-')?;
    }
    for unit in units {
        hexadecimal::push_unit(&mut text, *unit)?;
    }
    Ok(text)
}
