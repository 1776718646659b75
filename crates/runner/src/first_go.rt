//! The first go of a new run.
ghost use Rattle.host.specs.Label.{label_written};
ghost use Rattle.verifier.specs.Numbering.{Admitted as IsAdmitted};
ghost use Rattle.run.specs.Step.{host_of};
ghost use Rattle.run.specs.Run.{Goes};
ghost use Rattle.rows.specs.Carried.{label_host};
ghost use Rattle.runner.specs.Texts.{first_go, Went};

use crate::memory::CELLS;
use host::Host;
use host::label::Label;
use machine::stop::Stop;
use rows::carry_out;
use rows::event::Event;
use run::run::Run;
use verifier::admit::Admitted;

/// How many instructions a go does at most.
const FUEL: u32 = 10_000;

/// Starts a run on these cells, and answers the stop and the count of its first go.
#[tactic(auto, unfolding(crate::specs::Texts::go_once))]
pub(crate) fn first_go<H: Host>(
    admitted: Admitted<'_, '_>,
    cells: &mut [u16; CELLS],
    host: &mut H,
) -> (Stop, u32)
    requires admitted { IsAdmitted admitted.file.now admitted.sheet.now }
    ensures went { Went (first_go admitted.entry.file.now admitted.entry.sheet.now (host_of (H.waiting host.old) (H.written host.old) (H.space host.old))) result (H.written host.new) }
    ensures kept { H.kept host.old host.new }
{
    Run::start(admitted, cells).go(host, FUEL)
}

/// A row of one go.
#[tactic(auto, using(crate::proofs::Counted::counted_within))]
fn go_in_row(run: &mut Run<'_, '_, '_>, label: &mut Label<'_>) -> (Stop, u32)
    ensures { Goes run.old (label_host label.old) 10000 run.new (label_host label.new) result }
{
    let (Some(stop), count) = carry_out(run, label, &[Event::Go(FUEL)]) else {
        unreachable()
    };
    (stop, count as u32)
}

/// The first go on a label. It is a row of one go: `carry_out` states the laws of rows.
#[tactic(auto, unfolding(crate::specs::Texts::go_once))]
pub(crate) fn first_row(
    admitted: Admitted<'_, '_>,
    cells: &mut [u16; CELLS],
    label: &mut Label<'_>,
) -> (Stop, u32)
    requires admitted { IsAdmitted admitted.file.now admitted.sheet.now }
    ensures { Went (first_go admitted.entry.file.now admitted.entry.sheet.now (label_host label.old)) result (label_written label.new) }
{
    go_in_row(&mut Run::start(admitted, cells), label)
}
