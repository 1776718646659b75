//! A go: instructions until something stops it.
ghost use Rattle.std.specs.Prelude.{◌≡◌, true, Some};
ghost use Rattle.machine.specs.Go.{outcome_begun};
ghost use Rattle.run.specs.Standing.{program, numbers, cells, state_of};
ghost use Rattle.run.specs.Done.{Kept};
ghost use Rattle.run.specs.Step.{host_of};

use crate::interpreter::Interpreter;
use host::Host;
use machine::stop::Stop;

impl<'f, 'p, 's> Interpreter<'f, 'p, 's> {
    /// Does instructions until something stops it, at most as many as the fuel, and answers the stop and how many it did.
    pub(crate) fn go<H: Host>(&mut self, host: &mut H, fuel: u32) -> (Stop, u32)
        ensures stays { Kept self.old self.new }
        ensures kept { H.kept host.old host.new }
        ensures still { result.1 ≡ 0 → self.new ≡ self.old }
        ensures goes { outcome_begun (program self.old) (numbers self.old) (cells self.old) fuel (state_of self.old) (host_of (H.waiting host.old) (H.written host.old) (H.space host.old)) ≡ record { run = Some (state_of self.new); host = host_of (H.waiting host.new) (H.written host.new) (H.space host.new); stop = result.0; counted = result.1 } }
    {
        if let Some(end) = self.ended {
            return (Stop::Ended(end), 0);
        }
        for count in 0..fuel {
            if let Some(stop) = self.step(host) {
                return (stop, count);
            }
            if let Some(end) = self.ended {
                return (Stop::Ended(end), count + 1);
            }
        }
        (Stop::Spent, fuel)
    }
}
