//! Instructions on the operands alone.
ghost use Rattle.std.specs.Prelude.{◌≡◌, ◌≤◌, true, ◌∷◌, length, Some};
ghost use Rattle.bytecode.specs.declared.instruction.Instruction.TheVariants.{Bipush, Pop, Dup, Swap, Iadd, Isub, Iand, Ior};
ghost use Rattle.machine.specs.Machine.{with_operands};
ghost use Rattle.frames.specs.Frames.{running, waiting, Kept};
ghost use Rattle.run.specs.Standing.{program, stands};
ghost use Rattle.run.specs.Done.{Stands, Idles, Combines, Done};

use crate::interpreter::Interpreter;
use frames::Frames;

/// The two operands on top, taken off: the lower one, and the upper one.
pub(crate) fn pop_two(frames: &mut Frames<'_, '_>) -> (u16, u16)
    requires two { 2 ≤ length (running frames.old).operands }
    ensures kept { Kept frames.old frames.new }
    ensures values { (running frames.old).operands ≡ result.1 ∷ result.0 ∷ (running frames.new).operands }
    ensures running { running frames.new ≡ with_operands (running frames.old) (running frames.new).operands }
    ensures waiting { waiting frames.new ≡ waiting frames.old }
{
    let upper = frames.pop();
    let lower = frames.pop();
    (lower, upper)
}

impl<'f, 'p, 's> Interpreter<'f, 'p, 's> {
    /// What the operation gives of the two operands on top, the lower one first, in their place.
    fn combine<F: Fn(u16, u16) -> u16>(&mut self, operation: F)
        requires callable { F.IsAlwaysCallable operation }
        requires here { Stands self.old 1 2 (Combines (λ u v r. F.post operation u v r) (program self.old)) }
        ensures { Done self.old self.new }
    {
        let (lower, upper) = pop_two(&mut self.frames);
        self.frames.push(operation(lower, upper));
        self.place += 1;
    }

    /// IADD: the sum of the two operands on top, in sixteen bits.
    pub(crate) fn add(&mut self)
        requires here { stands self.old ≡ Some Iadd }
        ensures { Done self.old self.new }
    {
        self.combine(|lower, upper| lower.wrapping_add(upper));
    }

    /// ISUB: the lower operand less the upper one, in sixteen bits.
    pub(crate) fn subtract(&mut self)
        requires here { stands self.old ≡ Some Isub }
        ensures { Done self.old self.new }
    {
        self.combine(|lower, upper| lower.wrapping_sub(upper));
    }

    /// IAND, bit by bit.
    pub(crate) fn and(&mut self)
        requires here { stands self.old ≡ Some Iand }
        ensures { Done self.old self.new }
    {
        self.combine(|lower, upper| lower & upper);
    }

    /// IOR, bit by bit.
    pub(crate) fn or(&mut self)
        requires here { stands self.old ≡ Some Ior }
        ensures { Done self.old self.new }
    {
        self.combine(|lower, upper| lower | upper);
    }

    /// BIPUSH: a number.
    pub(crate) fn push_number(&mut self, number: u16)
        requires here { stands self.old ≡ Some (Bipush number) }
        ensures { Done self.old self.new }
    {
        self.frames.push(number);
        self.place += 3;
    }

    /// POP.
    pub(crate) fn pop(&mut self)
        requires here { stands self.old ≡ Some Pop }
        ensures { Done self.old self.new }
    {
        self.frames.pop();
        self.place += 1;
    }

    /// DUP: the operand on top once more.
    pub(crate) fn duplicate(&mut self)
        requires here { stands self.old ≡ Some Dup }
        ensures { Done self.old self.new }
    {
        let value = self.frames.last();
        self.frames.push(value);
        self.place += 1;
    }

    /// SWAP: the two operands on top in the other order.
    pub(crate) fn swap(&mut self)
        requires here { stands self.old ≡ Some Swap }
        ensures { Done self.old self.new }
    {
        let (lower, upper) = pop_two(&mut self.frames);
        self.frames.push(upper);
        self.frames.push(lower);
        self.place += 1;
    }

    /// NOP, and WIDE, which does nothing either.
    pub(crate) fn do_nothing(&mut self)
        requires here { Stands self.old 1 0 (Idles (program self.old)) }
        ensures { Done self.old self.new }
    {
        self.place += 1;
    }
}
