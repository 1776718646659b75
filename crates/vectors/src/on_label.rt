//! Runs on a label.
ghost use Rattle.std.specs.Prelude.{◌≡◌};
ghost use Rattle.verifier.specs.Numbering.{Admitted as IsAdmitted};

use crate::memory::{filled_units, slots};
use crate::stored::{Case, entry_numbers};
use crate::words::{stop_word, units_word};
use host::label::Label;
use machine::stop::Stop;
use run::run::Run;
use std::alloc::{AllocError, Global};
use verifier::admit::Admitted;

/// The fuel of one go.
pub(crate) const FUEL: u32 = 10_000;

/// What is told of the gos on a label: the last one's stop, how many instructions all did, and how many keys were refused.
#[derive(Clone, Copy)]
struct Gone {
    stop: Option<Stop>,
    count: u64,
    lost: usize,
}

/// Keys units, each of two bytes, and answers how many of them were refused.
fn key_all(label: &mut Label<'_>, units: &[[u8; 2]]) -> usize {
    let mut lost: usize = 0;
    for unit in units {
        if label.key(u16::from_be_bytes(*unit)).is_err() {
            lost = lost.saturating_add(1);
        }
    }
    lost
}

/// The words of the gos on a label.
fn words(heap: Global, gone: Gone, units: &[u16]) -> Result<String, AllocError> {
    let stop = match gone.stop {
        Some(stop) => stop_word(heap, stop)?,
        None => format!(in heap; "none")?,
    };
    let count = gone.count;
    let lost = gone.lost;
    let units = units_word(heap, units)?;
    format!(in heap; "{stop} {count} {lost} {units}")
}

/// The words of one go on a label with all keys.
pub(crate) fn in_one_go(
    heap: Global,
    admitted: Admitted<'_, '_>,
    case: &Case<'_>,
) -> Result<String, AllocError>
    requires { IsAdmitted admitted.file.now admitted.sheet.now }
{
    let mut line = slots(heap, case.slots)?;
    let mut cells = filled_units(heap, case.cells)?;
    let mut label = Label::new(line.as_mut_slice());
    let lost = key_all(&mut label, case.keys.as_chunks().0);
    let mut run = Run::start(admitted, cells.as_mut_slice());
    let (stop, count) = run.go(&mut label, FUEL);
    let gone = Gone {
        stop: Some(stop),
        count: count as u64,
        lost,
    };
    words(heap, gone, label.shown())
}

/// Goes a slice after the other, each after its keys.
fn go_slices(run: &mut Run<'_, '_, '_>, label: &mut Label<'_>, case: &Case<'_>) -> Gone {
    let mut gone = Gone {
        stop: None,
        count: 0,
        lost: 0,
    };
    let mut units = case.keys.as_chunks().0;
    for slice in case.slices {
        let (fuel, arriving) = entry_numbers(*slice);
        let (arrived, later) = units.split_at(units.len().min(arriving as usize));
        units = later;
        let lost = key_all(label, arrived);
        let (stop, count) = run.go(label, fuel);
        gone = Gone {
            stop: Some(stop),
            count: gone.count.saturating_add(count as u64),
            lost: gone.lost.saturating_add(lost),
        };
    }
    gone
}

/// The words of the gos on a label slice by slice.
pub(crate) fn in_slices(
    heap: Global,
    admitted: Admitted<'_, '_>,
    case: &Case<'_>,
) -> Result<String, AllocError>
    requires { IsAdmitted admitted.file.now admitted.sheet.now }
{
    let mut line = slots(heap, case.slots)?;
    let mut cells = filled_units(heap, case.cells)?;
    let mut label = Label::new(line.as_mut_slice());
    let mut run = Run::start(admitted, cells.as_mut_slice());
    let gone = go_slices(&mut run, &mut label, case);
    words(heap, gone, label.shown())
}
