//! A ring buffer: a first-in-first-out line over lent memory.
#![tactic(auto)]

ghost use Rattle.std.specs.Prelude.{◌≡◌, ◌+◌, ◌-◌, ◌<◌, ◌≤◌, [], ◌∷◌, ◌++◌, length, drop, ◌==◌};

/// A first-in-first-out line of values in lent slots, as many as there are slots.
///
/// The values stand from the slot at `head` on, and past the last slot from the first again.
/// What a free slot holds is not told.
#[derive(Drop)]
pub struct Ring<'a, T> {
    slots: &'a mut [T],
    head: usize,
    count: usize,
    ghost within: { (head ≤ length slots.now - 1) × (count ≤ length slots.now) },
}

#[tactic(auto, using(crate::proofs::Laws::laws))]
impl<'a, T: Copy> Ring<'a, T> {
    ghost use Rattle.ring.specs.Ring.{items, capacity, Pushed, Popped};

    /// An empty line in these slots.
    pub fn new(slots: &'a mut [T]) -> Ring<'a, T>
        ensures items { items result ≡ [] }
        ensures capacity { capacity result ≡ length slots.old }
    {
        Ring {
            slots,
            head: 0,
            count: 0,
        }
    }

    /// How many values wait, at most as many as there are slots.
    pub fn len(&self) -> usize
        ensures count { result ≡ length (items self.now) }
        ensures fits { result ≤ capacity self.now }
    {
        self.count
    }

    /// Whether no value waits.
    pub fn is_empty(&self) -> bool
        ensures { result ≡ (length (items self.now) == 0) }
    {
        self.len() == 0
    }

    /// Adds a value at the end, or hands it back exactly where every slot is in use.
    pub fn push(&mut self, value: T) -> Result<(), T>
        ensures items { Pushed (items self.old) (capacity self.old) value result (items self.new) }
        ensures capacity { capacity self.new ≡ capacity self.old }
    {
        if self.len() == self.slots.len() {
            return Err(value);
        }
        self.append(value);
        Ok(())
    }

    /// Takes the first value off, or answers nothing exactly where none waits.
    pub fn pop(&mut self) -> Option<T>
        ensures items { Popped (items self.old) result (items self.new) }
        ensures capacity { capacity self.new ≡ capacity self.old }
    {
        let value = self.front()?;
        self.free_first();
        Some(value)
    }

    /// The first value, if one waits.
    fn front(&self) -> Option<T>
        ensures { Popped (items self.now) result (drop 1 (items self.now)) }
    {
        if self.is_empty() {
            return None;
        }
        Some(self.slots[self.head])
    }

    /// Frees the slot of the first value.
    fn free_first(&mut self)
        requires { 0 < length (items self.old) }
        ensures items { items self.new ≡ drop 1 (items self.old) }
        ensures capacity { capacity self.new ≡ capacity self.old }
    {
        self.head = self.slot(1);
        self.count -= 1;
    }

    /// Writes a value into the slot after the last value.
    fn append(&mut self, value: T)
        requires { length (items self.old) < capacity self.old }
        ensures items { items self.new ≡ items self.old ++ value ∷ [] }
        ensures capacity { capacity self.new ≡ capacity self.old }
    {
        let count = self.count;
        let free = self.slot(count);
        self.slots[free] = value;
        self.count += 1;
    }

    /// The slot that many after the one at `head`, past the last slot from the first again.
    fn slot(&self, after: usize) -> usize
        ensures before { self.now.head + after < capacity self.now → result ≡ self.now.head + after }
        ensures past { capacity self.now ≤ self.now.head + after → result ≡ self.now.head + after - capacity self.now }
    {
        let left = self.slots.len() - self.head;
        if after < left {
            self.head + after
        } else {
            after - left
        }
    }
}
