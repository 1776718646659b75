//! One turn: the next instruction, or what hinders it.
ghost use Rattle.std.specs.Prelude.{◌≡◌, true, false, is_some};
ghost use Rattle.run.specs.Step.{host_of, hindered, Turn};

use crate::interpreter::Interpreter;
use host::Host;
use machine::stop::Stop;

impl<'f, 'p, 's> Interpreter<'f, 'p, 's> {
    /// Does the next instruction, or answers what hinders it and changes nothing. It is told by its byte, as `execute` says.
    pub(crate) fn step<H: Host>(&mut self, host: &mut H) -> Option<Stop>
        requires runs { is_some self.old.ended ≡ false }
        ensures kept { H.kept host.old host.new }
        ensures stop { result ≡ hindered self.old (host_of (H.waiting host.old) (H.written host.old) (H.space host.old)) }
        ensures turn { Turn self.old (host_of (H.waiting host.old) (H.written host.old) (H.space host.old)) result self.new (host_of (H.waiting host.new) (H.written host.new) (H.space host.new)) }
    {
        match self.opcode() {
            0xB6 => {
                let index = self.index();
                self.call(index)
            }
            0xF0 => self.take_unit(host),
            0xF1 => self.put_units(host),
            opcode => {
                self.execute(opcode);
                None
            }
        }
    }
}
