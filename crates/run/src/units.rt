//! Units taken from and put to the host.
ghost use Rattle.std.specs.Prelude.{◌≡◌, true, false, is_some, Some};
ghost use Rattle.bytecode.specs.declared.instruction.Instruction.TheVariants.{In, Out};
ghost use Rattle.output.specs.Units.{units_of};
ghost use Rattle.machine.specs.Go.{next_text};
ghost use Rattle.run.specs.Standing.{program, state_of, stands};
ghost use Rattle.run.specs.Done.{Took, Wrote};
ghost use Rattle.run.specs.Step.{host_of, hindered, Turn};

use crate::interpreter::Interpreter;
use host::Host;
use machine::stop::Stop;
use output::Text;

impl<'f, 'p, 's> Interpreter<'f, 'p, 's> {
    /// IN: the first waiting unit becomes an operand, if one waits.
    pub(crate) fn take_unit<H: Host>(&mut self, host: &mut H) -> Option<Stop>
        requires here { stands self.old ≡ Some In }
        requires runs { is_some self.old.ended ≡ false }
        ensures kept { H.kept host.old host.new }
        ensures stop { result ≡ hindered self.old (host_of (H.waiting host.old) (H.written host.old) (H.space host.old)) }
        ensures turn { Turn self.old (host_of (H.waiting host.old) (H.written host.old) (H.space host.old)) result self.new (host_of (H.waiting host.new) (H.written host.new) (H.space host.new)) }
    {
        let Some(unit) = host.take() else {
            return Some(Stop::NoUnit);
        };
        self.push_unit(unit);
        None
    }

    /// The unit that IN took, as an operand.
    fn push_unit(&mut self, unit: u16)
        requires here { stands self.old ≡ Some In }
        ensures { Took unit self.old self.new }
    {
        self.frames.push(unit);
        self.place += 1;
    }

    /// OUT: the units of the operand on top are put to the host, if it has room for all of them.
    pub(crate) fn put_units<H: Host>(&mut self, host: &mut H) -> Option<Stop>
        requires here { stands self.old ≡ Some Out }
        requires runs { is_some self.old.ended ≡ false }
        ensures kept { H.kept host.old host.new }
        ensures stop { result ≡ hindered self.old (host_of (H.waiting host.old) (H.written host.old) (H.space host.old)) }
        ensures turn { Turn self.old (host_of (H.waiting host.old) (H.written host.old) (H.space host.old)) result self.new (host_of (H.waiting host.new) (H.written host.new) (H.space host.new)) }
    {
        let text = self.next_text();
        if host.room() < text.count() {
            return Some(Stop::NoRoom);
        }
        self.drop_written();
        text.put(host);
        None
    }

    /// The units of the operand on top, as OUT writes them.
    fn next_text(&self) -> Text
        requires here { stands self.now ≡ Some Out }
        ensures { units_of result ≡ next_text (program self.now) (state_of self.now) }
    {
        self.mode.text(self.frames.last())
    }

    /// Takes the operand off that OUT writes.
    fn drop_written(&mut self)
        requires here { stands self.old ≡ Some Out }
        ensures { Wrote (next_text (program self.old) (state_of self.old)) self.old self.new }
    {
        self.frames.pop();
        self.place += 1;
    }
}
