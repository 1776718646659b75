//! Tests of the ring buffer.

#![tactic(auto)]

#[cfg(test)]
mod tests {
    use ring::Ring;
    use std::process::Abort;

    #[derive(Clone, Copy, PartialEq, Debug)]
    struct Entry {
        place: u16,
        number: u8,
    }

    // Fills the line and empties it, 300 times, each time from one slot further on.
    fn fill_and_empty(rt: &impl Abort, slots: &mut [u16], size: u16) {
        let mut line = Ring::new(slots);
        for _ in 0..300u16 {
            for value in 0..size {
                assert!(rt; line.push(value).is_ok());
            }
            assert_eq!(rt; line.len(), size as usize);
            assert_eq!(rt; line.push(7), Err(7));
            for value in 0..size {
                assert_eq!(rt; line.pop(), Some(value));
            }
            assert_eq!(rt; line.pop(), None);
            let _ = line.push(0);
            let _ = line.pop();
            assert!(rt; line.is_empty());
        }
    }

    #[test]
    fn holds_as_many_as_it_has_slots(rt: HostRuntime) {
        fill_and_empty(&rt, &mut [0; 0], 0);
        fill_and_empty(&rt, &mut [0; 1], 1);
        fill_and_empty(&rt, &mut [0; 256], 256);
    }

    // Four records wait in five slots, while one is pushed and one popped.
    #[test]
    fn wraps_round_many_times(rt: HostRuntime) {
        let mut slots = [Entry {
            place: 0,
            number: 0,
        }; 5];
        let mut line = Ring::new(&mut slots);
        for place in 0..1000u16 {
            assert!(rt; line.push(Entry { place, number: 1 }).is_ok());
            if place >= 4 {
                let first = Entry {
                    place: place - 4,
                    number: 1,
                };
                assert!(rt; line.pop() == Some(first));
            }
        }
        assert_eq!(rt; line.len(), 4);
    }
}
