//! The instructions that nothing hinders.
ghost use Rattle.std.specs.Prelude.{◌≡◌, true};
ghost use Rattle.format.specs.Layout.{byte};
ghost use Rattle.run.specs.Standing.{program};
ghost use Rattle.run.specs.Done.{is_free, Done};

use crate::interpreter::Interpreter;

impl<'f, 'p, 's> Interpreter<'f, 'p, 's> {
    /// Does the next instruction, one that nothing hinders. It is told by its byte, since going over the decoded instruction takes
    /// more than twice as long (docs/DECISIONS.md).
    pub(crate) fn execute(&mut self, opcode: u8)
        requires here { opcode ≡ byte (program self.old) self.old.place }
        requires free { is_free opcode ≡ true }
        ensures { Done self.old self.new }
    {
        match opcode {
            0x00 | 0xC4 => self.do_nothing(),
            0x10 => self.push_number(self.number_at(1)),
            0x12 => self.load_constant(self.index()),
            0x15 => self.load(self.index()),
            0x36 => self.store(self.index()),
            0x57 => self.pop(),
            0x59 => self.duplicate(),
            0x5F => self.swap(),
            0x60 => self.add(),
            0x64 => self.subtract(),
            0x7E => self.and(),
            0x80 => self.or(),
            0x84 => self.increment(self.index(), self.number_at(2)),
            0x99 => self.jump_if_zero(self.number_at(1)),
            0x9B => self.jump_if_negative(self.number_at(1)),
            0x9F => self.jump_if_equal(self.number_at(1)),
            0xA7 => self.jump(self.number_at(1)),
            0xAC => self.give_back_value(),
            0xB1 => self.give_back(),
            0xF2 => self.fail(self.index()),
            0xFA => self.set_mode(self.index()),
            0xFF => self.halt(),
            _ => unreachable(),
        }
    }
}
