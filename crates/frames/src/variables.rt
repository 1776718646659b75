//! The variables of the running frame: its parameters, then its locals.
ghost use Rattle.std.specs.Prelude.{◌≡◌, ◌+◌, ◌<◌, length, slice_index};
ghost use Rattle.machine.specs.Machine.{Frame, with_variable};
ghost use Rattle.frames.specs.Frames.{running, waiting, Kept};

use crate::{Frames, HEAD};

impl<'f, 's> Frames<'f, 's> {
    /// The value of a variable. Only for the crates above, which name variables that the frame has.
    pub fn load(&self, index: u8) -> u16
        requires inside { index < length (running self.now).variables }
        ensures { result ≡ slice_index (running self.now).variables index }
    {
        self.cells[self.variable_cell(index)]
    }

    /// Gives a variable another value. Only for the crates above, which name variables that the frame has.
    pub fn store(&mut self, index: u8, value: u16)
        requires inside { index < length (running self.old).variables }
        ensures kept { Kept self.old self.new }
        ensures running { running self.new ≡ with_variable (running self.old) index value (running self.old).operands }
        ensures waiting { waiting self.new ≡ waiting self.old }
    {
        self.write(index, value);
    }

    /// Writes the cell of a variable. Apart from `store`, since its proof is written by hand.
    fn write(&mut self, index: u8, value: u16)
        requires inside { index < length (running self.old).variables }
        ensures kept { Kept self.old self.new }
        ensures running { running self.new ≡ with_variable (running self.old) index value (running self.old).operands }
        ensures waiting { waiting self.new ≡ waiting self.old }
    {
        let at = self.variable_cell(index);
        self.cells[at] = value;
    }

    /// The cell of a variable.
    fn variable_cell(&self, index: u8) -> usize
        requires inside { index < length (running self.now).variables }
        ensures place { result ≡ self.now.base + 3 + index }
        ensures inside { result < length self.now.cells.now }
        ensures value { slice_index self.now.cells.now result ≡ slice_index (running self.now).variables index }
    {
        self.base + HEAD + index as usize
    }
}
