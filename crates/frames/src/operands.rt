//! The operands of the running frame.
ghost use Rattle.std.specs.Prelude.{◌≡◌, ◌<◌, ◌∷◌, length, drop};
ghost use Rattle.machine.specs.Machine.{Frame, with_operands};
ghost use Rattle.machine.specs.Go.{frames_size, cells_used};
ghost use Rattle.frames.specs.Frames.{running, waiting, size, Kept};

use crate::Frames;

impl<'f, 's> Frames<'f, 's> {
    /// Pushes an operand. Only for the crates above, which push where a cell is free.
    pub fn push(&mut self, value: u16)
        requires room { frames_size (running self.old ∷ waiting self.old) < cells_used (size self.old) }
        ensures kept { Kept self.old self.new }
        ensures running { running self.new ≡ with_operands (running self.old) (value ∷ (running self.old).operands) }
        ensures waiting { waiting self.new ≡ waiting self.old }
    {
        self.append(value);
    }

    /// Takes the last operand off. Only for the crates above, which pop where there is one.
    pub fn pop(&mut self) -> u16
        requires some { 0 < length (running self.old).operands }
        ensures kept { Kept self.old self.new }
        ensures value { (running self.old).operands ≡ result ∷ (running self.new).operands }
        ensures running { running self.new ≡ with_operands (running self.old) (running self.new).operands }
        ensures waiting { waiting self.new ≡ waiting self.old }
    {
        let value = self.last();
        self.drop_last();
        value
    }

    /// Writes the first cell above the frame, and raises the top above it. Apart from `push`, since its proof is written by hand,
    /// and what `push` promises is found from this contract alone.
    fn append(&mut self, value: u16)
        requires room { frames_size (running self.old ∷ waiting self.old) < cells_used (size self.old) }
        ensures kept { Kept self.old self.new }
        ensures running { running self.new ≡ with_operands (running self.old) (value ∷ (running self.old).operands) }
        ensures waiting { waiting self.new ≡ waiting self.old }
    {
        self.cells[self.top] = value;
        self.top += 1;
    }

    /// The last operand. Only for the crates above, which ask where there is one.
    #[tactic(auto, using(crate::proofs::Writes::last_is, crate::proofs::Writes::last_inside))]
    pub fn last(&self) -> u16
        requires some { 0 < length (running self.now).operands }
        ensures { (running self.now).operands ≡ result ∷ drop 1 (running self.now).operands }
    {
        self.cells[self.top - 1]
    }

    /// Lowers the top below the last operand.
    fn drop_last(&mut self)
        requires some { 0 < length (running self.old).operands }
        ensures kept { Kept self.old self.new }
        ensures running { running self.new ≡ with_operands (running self.old) (drop 1 (running self.old).operands) }
        ensures waiting { waiting self.new ≡ waiting self.old }
    {
        self.top -= 1;
    }
}
