//! Instructions on variables and constants.
ghost use Rattle.std.specs.Prelude.{◌≡◌, ◌+◌, ◌≤◌, true, length, Some};
ghost use Rattle.bytecode.specs.declared.instruction.Instruction.TheVariants.{Ldc, Iload, Istore, Iinc};
ghost use Rattle.format.specs.Layout.{be16, constant_address};
ghost use Rattle.run.specs.Standing.{stands};
ghost use Rattle.run.specs.Done.{Done};

use crate::interpreter::Interpreter;
use format::layout::method_count;

/// A constant of the program, from its two bytes. The reader's own way to a constant tests the index once more.
fn constant(file: &[u8], index: u8) -> u16
    requires { constant_address file.now index + 2 ≤ length file.now }
    ensures { result ≡ be16 file.now (constant_address file.now index) }
{
    let at = 13 + 10 * method_count(file) as usize + 2 * index as usize;
    u16::from_be_bytes([file[at], file[at + 1]])
}

impl<'f, 'p, 's> Interpreter<'f, 'p, 's> {
    /// ILOAD: the value of a variable.
    pub(crate) fn load(&mut self, index: u8)
        requires here { stands self.old ≡ Some (Iload index) }
        ensures { Done self.old self.new }
    {
        let value = self.frames.load(index);
        self.frames.push(value);
        self.place += 2;
    }

    /// ISTORE: the operand on top becomes the value of a variable.
    pub(crate) fn store(&mut self, index: u8)
        requires here { stands self.old ≡ Some (Istore index) }
        ensures { Done self.old self.new }
    {
        let value = self.frames.pop();
        self.frames.store(index, value);
        self.place += 2;
    }

    /// IINC: a variable and a number, in sixteen bits.
    pub(crate) fn increment(&mut self, index: u8, number: u16)
        requires here { stands self.old ≡ Some (Iinc index number) }
        ensures { Done self.old self.new }
    {
        let value = self.frames.load(index);
        self.frames.store(index, value.wrapping_add(number));
        self.place += 4;
    }

    /// LDC: a constant of the program.
    pub(crate) fn load_constant(&mut self, index: u8)
        requires here { stands self.old ≡ Some (Ldc index) }
        ensures { Done self.old self.new }
    {
        let value = constant(self.frames.file, index);
        self.frames.push(value);
        self.place += 2;
    }
}
