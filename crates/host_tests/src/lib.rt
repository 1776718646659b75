//! Tests of the label and the recorder.
#![tactic(auto)]

ghost use Rattle.std.specs.Prelude.{◌≡◌, ◌<◌, ◌≤◌, [], length, take};
ghost use Rattle.host.specs.Recorder.{recorded, units_of};

use host::Host;
use host::echo::echo;
use host::recorder::Recorder;

/// Records the first of the keys where there is room for it, through code that knows only what a host means.
/// The lender knows every byte of the memory afterwards.
pub fn record_first(memory: &mut [u8], keys: &[u8])
    ensures room { 5 ≤ length memory.old → memory.new ≡ recorded memory.old (take 1 (units_of keys.now)) }
    ensures short { length memory.old < 5 → memory.new ≡ recorded memory.old [] }
{
    let mut recorder = Recorder::open(memory, keys);
    let _ = echo(&mut recorder);
}

#[cfg(test)]
mod tests {
    use super::record_first;
    use host::echo::echo;
    use host::label::{LINE_FULL, Label};
    use host::recorder::Recorder;
    use host::{Host, NO_ROOM};
    use std::process::Abort;

    // Puts units counted from 0 until there is no room, of which there must be as much as said.
    fn fill<H: Host>(rt: &impl Abort, host: &mut H, room: u16) {
        for unit in 0..room {
            assert_eq!(rt; host.room(), room - unit);
            assert_eq!(rt; host.put(unit), Ok(()));
        }
        assert_eq!(rt; host.room(), 0);
        assert_eq!(rt; host.put(7), Err(NO_ROOM));
    }

    #[test]
    fn refusals_have_their_numbers(rt: HostRuntime) {
        assert_eq!(rt; LINE_FULL.rule.number(), 20);
        assert_eq!(rt; NO_ROOM.rule.number(), 21);
    }

    #[test]
    fn label_shows_96_units(rt: HostRuntime) {
        let mut slots = [0; 1];
        let mut label = Label::new(&mut slots);
        assert!(rt; label.shown() == [].as_slice());
        fill(&rt, &mut label, 96);
        assert_eq!(rt; label.shown().len(), 96);
        assert_eq!(rt; label.shown().get(95), Some(&95));
    }

    #[test]
    fn label_echoes_what_is_keyed(rt: HostRuntime) {
        let mut slots = [0; 2];
        let mut label = Label::new(&mut slots);
        assert_eq!(rt; label.key(65), Ok(()));
        assert_eq!(rt; label.key(66), Ok(()));
        assert_eq!(rt; label.key(67), Err(LINE_FULL));
        assert_eq!(rt; echo(&mut label), Ok(Some(65)));
        assert_eq!(rt; label.key(68), Ok(()));
        assert_eq!(rt; echo(&mut label), Ok(Some(66)));
        assert_eq!(rt; echo(&mut label), Ok(Some(68)));
        assert_eq!(rt; echo(&mut label), Ok(None));
        assert!(rt; label.shown() == [65, 66, 68].as_slice());
    }

    #[test]
    fn recorder_keeps_its_format(rt: HostRuntime) {
        let mut memory = [9; 7];
        let mut recorder = Recorder::open(&mut memory, &[0, 67]);
        assert_eq!(rt; recorder.put(65), Ok(()));
        assert_eq!(rt; recorder.put(66), Ok(()));
        assert_eq!(rt; recorder.put(67), Err(NO_ROOM));
        assert_eq!(rt; echo(&mut recorder), Err(NO_ROOM));
        assert_eq!(rt; recorder.take(), Some(67));
        assert!(rt; memory == [1, 0, 4, 0, 65, 0, 66]);
    }

    #[test]
    fn recorder_ignores_an_odd_key_byte(rt: HostRuntime) {
        let mut memory = [9; 8];
        let mut recorder = Recorder::open(&mut memory, &[1, 2, 3, 4, 5]);
        assert_eq!(rt; echo(&mut recorder), Ok(Some(0x0102)));
        assert_eq!(rt; recorder.take(), Some(0x0304));
        assert_eq!(rt; recorder.take(), None);
        assert_eq!(rt; echo(&mut recorder), Ok(None));
        assert!(rt; memory == [1, 0, 2, 1, 2, 9, 9, 9]);
        let mut memory = [9; 6];
        record_first(&mut memory, &[3, 4, 5, 6]);
        assert!(rt; memory == [1, 0, 2, 3, 4, 9]);
    }

    #[test]
    fn small_memory_has_no_room(rt: HostRuntime) {
        fill(&rt, &mut Recorder::open(&mut [], &[]), 0);
        let mut two = [9; 2];
        fill(&rt, &mut Recorder::open(&mut two, &[]), 0);
        assert!(rt; two == [9, 9]);
        let mut three = [9; 3];
        fill(&rt, &mut Recorder::open(&mut three, &[]), 0);
        assert!(rt; three == [1, 0, 0]);
        let mut four = [9; 4];
        fill(&rt, &mut Recorder::open(&mut four, &[]), 0);
        assert!(rt; four == [1, 0, 0, 9]);
    }

    // A record of 32,767 units: its header, its last unit, and bytes of 9 past it.
    fn check_large(rt: &impl Abort, memory: &[u8]) {
        assert!(rt; memory.len() >= 65_537);
        assert!(rt; memory[0..3] == [1, 0xFF, 0xFE]);
        assert!(rt; memory[65_535..65_537] == [0x7F, 0xFE]);
        for byte in &memory[65_537..] {
            assert_eq!(rt; *byte, 9);
        }
    }

    #[test]
    fn large_memory_has_room_for_32767_units(rt: HostRuntime) {
        let mut memory = [9; 65_537];
        fill(&rt, &mut Recorder::open(&mut memory, &[]), 32_767);
        check_large(&rt, &memory);
        let mut memory = [9; 65_540];
        fill(&rt, &mut Recorder::open(&mut memory, &[]), 32_767);
        check_large(&rt, &memory);
        let mut memory = [9; 70_000];
        fill(&rt, &mut Recorder::open(&mut memory, &[]), 32_767);
        check_large(&rt, &memory);
    }
}
