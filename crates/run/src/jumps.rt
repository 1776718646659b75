//! Jumps.
ghost use Rattle.std.specs.Prelude.{◌≡◌, ◌+◌, ◌<◌, true, if◌then◌else◌, Some};
ghost use Rattle.bytecode.specs.declared.instruction.Instruction.TheVariants.{Ifeq, Iflt, IfIcmpeq, Goto};
ghost use Rattle.bytecode.specs.Opcodes.{target};
ghost use Rattle.run.specs.Standing.{program, stands};
ghost use Rattle.run.specs.Done.{Stands, Branches, Done};

use crate::interpreter::Interpreter;
use crate::operands::pop_two;
use bytecode::flow::target;

/// Where a conditional jump at `place` goes on: at its target if the test holds, else after its three bytes.
fn way(place: usize, test: bool, distance: u16) -> usize
    requires { place < 65536 }
    ensures { result ≡ (if test then target place distance else place + 3) }
{
    if test {
        target(place, distance)
    } else {
        place + 3
    }
}

impl<'f, 'p, 's> Interpreter<'f, 'p, 's> {
    /// Takes the operand on top off, and jumps if the test of it holds.
    fn jump_if<F: Fn(u16) -> bool>(&mut self, test: F, distance: u16)
        requires callable { F.IsAlwaysCallable test }
        requires here { Stands self.old 3 1 (Branches (λ v b. F.post test v b) distance (program self.old)) }
        ensures { Done self.old self.new }
    {
        let value = self.frames.pop();
        self.place = way(self.place, test(value), distance);
    }

    /// IFEQ: if the operand on top is 0.
    pub(crate) fn jump_if_zero(&mut self, distance: u16)
        requires here { stands self.old ≡ Some (Ifeq distance) }
        ensures { Done self.old self.new }
    {
        self.jump_if(|value| value == 0, distance);
    }

    /// IFLT: if the operand on top is below 0.
    pub(crate) fn jump_if_negative(&mut self, distance: u16)
        requires here { stands self.old ≡ Some (Iflt distance) }
        ensures { Done self.old self.new }
    {
        self.jump_if(|value| value.cast_signed() < 0, distance);
    }

    /// IF_ICMPEQ: if the two operands on top are equal.
    pub(crate) fn jump_if_equal(&mut self, distance: u16)
        requires here { stands self.old ≡ Some (IfIcmpeq distance) }
        ensures { Done self.old self.new }
    {
        let (lower, upper) = pop_two(&mut self.frames);
        self.place = way(self.place, lower == upper, distance);
    }

    /// GOTO.
    pub(crate) fn jump(&mut self, distance: u16)
        requires here { stands self.old ≡ Some (Goto distance) }
        ensures { Done self.old self.new }
    {
        self.place = target(self.place, distance);
    }
}
