//! Tests of the frames.

#![tactic(auto)]

#[cfg(test)]
mod tests {
    use frames::Frames;

    // main has two locals; method 1 has two parameters and a local
    const FILE: [u8; 33] = [
        0, 0, 0, 0, 0, 0, 0, 0, 0, 0, 2, 0, 0, // the header
        0, 0, 0, 0, 0, 2, 0, 0, 0, 0, // main's entry
        0, 0, 0, 0, 2, 1, 0, 0, 0, 0, // the entry of method 1
    ];

    #[test]
    fn operands_come_back_in_turn(rt: HostRuntime) {
        let mut cells = [7; 8];
        let mut frames = Frames::open(&FILE, &mut cells);
        assert_eq!(rt; frames.capacity(), 8);
        assert_eq!(rt; frames.top(), 5);
        frames.push(11);
        frames.push(12);
        assert_eq!(rt; frames.top(), 7);
        assert_eq!(rt; frames.pop(), 12);
        assert_eq!(rt; frames.pop(), 11);
    }

    #[test]
    fn variables_keep_their_values(rt: HostRuntime) {
        let mut cells = [7; 8];
        let mut frames = Frames::open(&FILE, &mut cells);
        assert_eq!(rt; frames.load(0), 0);
        frames.store(1, 40);
        assert_eq!(rt; frames.load(0), 0);
        assert_eq!(rt; frames.load(1), 40);
    }

    #[test]
    fn arguments_become_variables(rt: HostRuntime) {
        let mut cells = [7; 12];
        let mut frames = Frames::open(&FILE, &mut cells);
        frames.push(11);
        frames.push(12);
        frames.push(13);
        frames.enter(1, 77);
        assert_eq!(rt; frames.top(), 12);
        assert_eq!(rt; frames.load(0), 12);
        assert_eq!(rt; frames.load(1), 13);
        assert_eq!(rt; frames.load(2), 0);
    }

    #[test]
    fn the_caller_goes_on(rt: HostRuntime) {
        let mut cells = [7; 12];
        let mut frames = Frames::open(&FILE, &mut cells);
        frames.push(11);
        frames.push(12);
        frames.push(13);
        assert!(rt; frames.is_only());
        frames.enter(1, 77);
        assert!(rt; !frames.is_only());
        assert_eq!(rt; frames.leave(), 77);
        assert!(rt; frames.is_only());
        assert_eq!(rt; frames.pop(), 11);
    }

    #[test]
    fn frames_lie_upward(rt: HostRuntime) {
        let mut cells = [7; 13];
        let mut frames = Frames::open(&FILE, &mut cells);
        frames.push(11);
        frames.push(12);
        frames.push(13);
        frames.enter(1, 77);
        assert_eq!(rt; cells, [0, 65535, 65535, 0, 0, 11, 1, 77, 0, 12, 13, 0, 7]);
    }
}
