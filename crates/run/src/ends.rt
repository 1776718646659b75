//! The ends of a run by an instruction of their own, and the output mode.
ghost use Rattle.std.specs.Prelude.{◌≡◌, true, Some};
ghost use Rattle.bytecode.specs.declared.instruction.Instruction.TheVariants.{Err, Setout, Halt};
ghost use Rattle.run.specs.Standing.{stands};
ghost use Rattle.run.specs.Done.{Done};

use crate::interpreter::Interpreter;
use machine::stop::End;
use output::mode::Mode;

impl<'f, 'p, 's> Interpreter<'f, 'p, 's> {
    /// ERR: the run ends with the number of a message.
    pub(crate) fn fail(&mut self, index: u8)
        requires here { stands self.old ≡ Some (Err index) }
        ensures { Done self.old self.new }
    {
        self.ended = Some(End::Error(index));
    }

    /// HALT: the run ends.
    pub(crate) fn halt(&mut self)
        requires here { stands self.old ≡ Some Halt }
        ensures { Done self.old self.new }
    {
        self.ended = Some(End::Halt);
    }

    /// SETOUT: another output mode.
    pub(crate) fn set_mode(&mut self, index: u8)
        requires here { stands self.old ≡ Some (Setout index) }
        ensures { Done self.old self.new }
    {
        self.mode = Mode::from(index);
        self.place += 2;
    }
}
