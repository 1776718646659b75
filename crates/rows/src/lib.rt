//! A row of gos on a label, with units keyed between them.
#![tactic(auto)]

ghost use Rattle.run.specs.Run.{HoldsFrames};
ghost use Rattle.rows.specs.Carried.{Carried, Carries, GoesOn};

use event::Event;
use host::label::Label;
use machine::stop::Stop;
use run::run::Run;

pub mod event;

/// One event, and the stop and the count of a go. A unit that is keyed on a full line is refused, and so does not arrive.
fn carry(run: &mut Run<'_, '_, '_>, label: &mut Label<'_>, event: Event) -> Option<(Stop, u32)>
    ensures { Carried run.old label.old event run.new label.new result }
{
    match event {
        Event::Go(fuel) => Some(run.go(label, fuel)),
        Event::Key(unit) => {
            let _ = label.key(unit);
            None
        }
    }
}

/// Carries events out, one after the other, and answers why the last go stopped, if there was one, and the sum of the counts.
/// However many events there are, 128 bits hold the sum.
pub fn carry_out(
    run: &mut Run<'_, '_, '_>,
    label: &mut Label<'_>,
    events: &[Event],
) -> (Option<Stop>, u128)
    ensures row { Carries run.old label.old events.now run.new label.new result }
    ensures frames { HoldsFrames run.new }
    ensures laws { GoesOn run.old label.old events.now run.new label.new result.1 }
{
    let mut last = None;
    let mut sum = 0;
    for event in events {
        if let Some((stop, count)) = carry(run, label, *event) {
            last = Some(stop);
            sum += count as u128;
        }
    }
    (last, sum)
}
