//! A run whose units are recorded in lent memory.
#![tactic(auto)]

ghost use Rattle.std.specs.Prelude.{◌≡◌, ◌≤◌, length, OnErr, OnOk};
ghost use Rattle.std.specs.Result.{result_err};
ghost use Rattle.host.specs.Recorder.{room_in, recorded};
ghost use Rattle.verifier.specs.Numbering.{Admitted as IsAdmitted, admit_refusal};
ghost use Rattle.run.specs.Step.{host_of};
ghost use Rattle.run.specs.Run.{Stays};
ghost use Rattle.recording.specs.Recording.{Makes, recorded_units, PlainUnits};

use host::Host;
use host::recorder::Recorder;
use refusals::Refusal;
use run::run::Run;
use verifier::admit::{Admitted, admit};

/// Makes a go with each of these fuels, one after the other.
fn go_all<H: Host>(run: &mut Run, host: &mut H, fuels: &[u32])
    ensures makes { Makes run.old (host_of (H.waiting host.old) (H.written host.old) (H.space host.old)) fuels.now run.new (host_of (H.waiting host.new) (H.written host.new) (H.space host.new)) }
    ensures stays { Stays run.old run.new }
    ensures kept { H.kept host.old host.new }
{
    for fuel in fuels {
        run.go(host, *fuel);
    }
}

/// Records what a new run of an admitted file writes in gos with these fuels.
fn record_admitted(
    admitted: Admitted,
    stack: &mut [u16],
    memory: &mut [u8],
    keys: &[u8],
    fuels: &[u32],
)
    requires admitted { IsAdmitted admitted.file.now admitted.sheet.now }
    ensures memory { memory.new ≡ recorded memory.old (recorded_units admitted.entry.file.now admitted.entry.sheet.now (length stack.old) memory.old keys.now fuels.now) }
    ensures room { length (recorded_units admitted.entry.file.now admitted.entry.sheet.now (length stack.old) memory.old keys.now fuels.now) ≤ room_in (length memory.old) }
{
    let mut recorder = Recorder::open(memory, keys);
    let mut run = Run::start(admitted, stack);
    go_all(&mut run, &mut recorder, fuels);
}

/// Admits the file with the sheet, and records what a new run of it on these cells writes in gos with these fuels.
/// The lender knows every byte of the memory afterwards.
pub fn record_goes(
    file: &[u8],
    sheet: &[u16],
    stack: &mut [u16],
    memory: &mut [u8],
    keys: &[u8],
    fuels: &[u32],
) -> Result<(), Refusal>
    ensures refuses { result_err result ≡ admit_refusal file.now sheet.now }
    ensures memory { OnOk result (memory.new ≡ recorded memory.old (recorded_units file.now sheet.now (length stack.old) memory.old keys.now fuels.now)) }
    ensures room { OnOk result (length (recorded_units file.now sheet.now (length stack.old) memory.old keys.now fuels.now) ≤ room_in (length memory.old)) }
    ensures untouched { OnErr result ((memory.new ≡ memory.old) × (stack.new ≡ stack.old)) }
{
    let admitted = admit(file, sheet)?;
    record_admitted(admitted, stack, memory, keys, fuels);
    Ok(())
}

/// The units that are recorded are those that the plain machine writes.
pub fn units_are_plain()
    ensures { PlainUnits }
{}
