//! The keys of a run.
ghost use Rattle.std.specs.Prelude.{◌≡◌, ◌≤◌, [], length, take};
ghost use Rattle.host.specs.Label.{label_waiting, label_written, label_space, label_capacity};
ghost use Rattle.host.specs.Recorder.{units_of};

use host::label::Label;

/// How many bytes of the keys are used: two a unit.
pub(crate) const USED: usize = 512;

/// The bytes of the keys that are used.
#[tactic(auto, using(std::proofs::lemmas::List::take_min))]
pub(crate) fn used(keys: &[u8]) -> &[u8]
    ensures bytes { result.now ≡ take 512 keys.now }
    ensures few { length result.now ≤ 512 }
{
    &keys[..USED.min(keys.len())]
}

/// Keys the byte pairs, one after the other, on a label whose line has a slot for each.
pub(crate) fn key_all(label: &mut Label<'_>, keys: &[u8])
    requires none { label_waiting label.old ≡ [] }
    requires capacity { label_capacity label.old ≡ 256 }
    requires few { length keys.now ≤ 512 }
    ensures waiting { label_waiting label.new ≡ units_of keys.now }
    ensures written { label_written label.new ≡ label_written label.old }
    ensures space { label_space label.new ≡ label_space label.old }
{
    for pair in keys.as_chunks().0 {
        // each has a slot, so none is refused
        let _ = label.key(u16::from_be_bytes(*pair));
    }
}
