//! Calls and returns.
ghost use Rattle.std.specs.Prelude.{◌≡◌, true, Some, MatchOption, nat_le, nat_lt};
ghost use Rattle.format.specs.Search.{when};
ghost use Rattle.bytecode.specs.declared.instruction.Instruction.TheVariants.{Ireturn, Return, Invokevirtual};
ghost use Rattle.machine.specs.declared.stop.Stop.TheVariants.{StackFull};
ghost use Rattle.machine.specs.Go.{cells_used, callee_need};
ghost use Rattle.run.specs.Standing.{program, numbers, cells, state_of, stands};
ghost use Rattle.run.specs.Done.{Done};

use crate::interpreter::Interpreter;
use crate::room::frame_need;
use format::layout::method_entry;
use machine::stop::{End, Stop};

impl<'f, 'p, 's> Interpreter<'f, 'p, 's> {
    /// Whether the frame of a called method fits above the running one, from which its parameters are taken.
    fn fits(&self, index: u8) -> bool
        requires here { stands self.now ≡ Some (Invokevirtual index) }
        ensures { result ≡ nat_le (callee_need (program self.now) (numbers self.now) (state_of self.now) index) (cells_used (cells self.now)) }
    {
        let parameters = method_entry(self.frames.file, index as usize).parameters;
        let base = self.frames.top() - parameters as usize;
        frame_need(self.frames.file, self.sheet, index, base) <= self.frames.capacity()
    }

    /// INVOKEVIRTUAL: a frame of the method called, or why it cannot be laid.
    pub(crate) fn call(&mut self, index: u8) -> Option<Stop>
        requires here { stands self.old ≡ Some (Invokevirtual index) }
        ensures stop { result ≡ when (nat_lt (cells_used (cells self.old)) (callee_need (program self.old) (numbers self.old) (state_of self.old) index)) StackFull }
        ensures state { MatchOption result (Done self.old self.new) (λ _. self.new ≡ self.old) }
    {
        if !self.fits(index) {
            return Some(Stop::StackFull);
        }
        self.enter(index);
        None
    }

    /// A frame of the method called.
    fn enter(&mut self, index: u8)
        requires here { stands self.old ≡ Some (Invokevirtual index) }
        requires fits { nat_le (callee_need (program self.old) (numbers self.old) (state_of self.old) index) (cells_used (cells self.old)) ≡ true }
        ensures { Done self.old self.new }
    {
        let back = self.place + 2;
        self.frames.enter(index, back as u16);
        self.place = method_entry(self.frames.file, index as usize).code as usize;
    }

    /// RETURN: back to the caller, or the run's end where main returns.
    pub(crate) fn give_back(&mut self)
        requires here { stands self.old ≡ Some Return }
        ensures { Done self.old self.new }
    {
        if self.frames.is_only() {
            self.ended = Some(End::Plain);
            return;
        }
        self.place = self.frames.leave() as usize;
    }

    /// IRETURN: back to the caller with the operand on top, or the run's end with it where main returns.
    pub(crate) fn give_back_value(&mut self)
        requires here { stands self.old ≡ Some Ireturn }
        ensures { Done self.old self.new }
    {
        let value = self.frames.last();
        if self.frames.is_only() {
            self.ended = Some(End::Value(value));
            return;
        }
        self.place = self.frames.leave() as usize;
        self.frames.push(value);
    }
}
