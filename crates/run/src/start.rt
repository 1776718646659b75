//! The start of a run, and its gos.
ghost use Rattle.std.specs.Prelude.{◌≡◌, true, false, length, Some, None};
ghost use Rattle.verifier.specs.Numbering.{Admitted as IsAdmitted};
ghost use Rattle.machine.specs.Go.{begins, start};
ghost use Rattle.machine.specs.Machine.{State, main};
ghost use Rattle.run.specs.Run.{file_of, sheet_of, cells_of_run, size_of, stack_of, seen, HoldsFrames, Goes, Stays, KeepsLevel, Replays};
ghost use Rattle.run.specs.Step.{host_of};

use crate::interpreter::Interpreter;
use crate::room::frame_need;
use crate::run::{Lent, Run, Stage};
use format::layout::method_entry;
use frames::{Frames, MOST_CELLS};
use host::Host;
use machine::stop::Stop;
use output::mode::Mode;
use verifier::admit::Admitted;

/// Whether main's frame fits on so many cells.
fn main_fits(file: &[u8], sheet: &[u16], cells: usize) -> bool
    requires admitted { IsAdmitted file.now sheet.now }
    ensures { result ≡ begins file.now sheet.now cells }
{
    frame_need(file, sheet, 0, 0) <= cells.min(MOST_CELLS)
}

/// A run at main's start.
fn begun<'f, 'p, 's>(file: &'f [u8], sheet: &'p [u16], stack: &'s mut [u16]) -> Run<'f, 'p, 's>
    requires admitted { IsAdmitted file.now sheet.now }
    requires fits { begins file.now sheet.now (length stack.old) ≡ true }
    ensures state { seen result ≡ Some (main file.now) }
    ensures file { file_of result ≡ file.now }
    ensures sheet { sheet_of result ≡ sheet.now }
    ensures size { size_of result ≡ length stack.old }
    ensures lent { (cells_of_run result).ghost_name ≡ stack.entry.ghost_name }
    ensures frames { HoldsFrames result }
    ensures levels { KeepsLevel result }
    ensures replay { Replays result }
{
    let place = method_entry(file, 0).code as usize;
    let interpreter = Interpreter {
        frames: Frames::open(file, stack),
        sheet,
        place,
        mode: Mode::Pattern,
        ended: None,
    };
    Run {
        stage: Stage::Begun(interpreter),
    }
}

/// A run that never begins: it is at no instruction, and has no frame.
fn unbegun<'f, 'p, 's>(file: &'f [u8], sheet: &'p [u16], stack: &'s mut [u16]) -> Run<'f, 'p, 's>
    requires admitted { IsAdmitted file.now sheet.now }
    ensures state { seen result ≡ None }
    ensures file { file_of result ≡ file.now }
    ensures sheet { sheet_of result ≡ sheet.now }
    ensures cells { stack_of result ≡ stack.old }
    ensures lent { (cells_of_run result).ghost_name ≡ stack.entry.ghost_name }
    ensures frames { HoldsFrames result }
    ensures levels { KeepsLevel result }
    ensures replay { Replays result }
{
    let lent = Lent {
        file,
        sheet,
        cells: stack,
    };
    Run {
        stage: Stage::Unbegun(lent),
    }
}

impl<'f, 'p, 's> Run<'f, 'p, 's> {
    /// A new run of an admitted file on these cells. It asks for nothing but a pair that `admit` gave.
    pub fn start(admitted: Admitted<'f, 'p>, stack: &'s mut [u16]) -> Run<'f, 'p, 's>
        requires admitted { IsAdmitted admitted.file.now admitted.sheet.now }
        ensures state { seen result ≡ start admitted.entry.file.now admitted.entry.sheet.now (length stack.old) }
        ensures file { file_of result ≡ admitted.entry.file.now }
        ensures sheet { sheet_of result ≡ admitted.entry.sheet.now }
        ensures size { size_of result ≡ length stack.old }
        ensures lent { (cells_of_run result).ghost_name ≡ stack.entry.ghost_name }
        ensures frames { HoldsFrames result }
        ensures untouched { begins admitted.entry.file.now admitted.entry.sheet.now (length stack.old) ≡ false → stack_of result ≡ stack.old }
        ensures levels { KeepsLevel result }
        ensures replay { Replays result }
    {
        let (file, sheet) = admitted.parts();
        if main_fits(file, sheet, stack.len()) {
            return begun(file, sheet, stack);
        }
        unbegun(file, sheet, stack)
    }

    /// Does instructions until something stops it, at most as many as the fuel, and answers the stop and how many it did.
    #[tactic(auto, using(crate::proofs::Holding::holds))]
    pub fn go<H: Host>(&mut self, host: &mut H, fuel: u32) -> (Stop, u32)
        ensures goes { Goes self.old (host_of (H.waiting host.old) (H.written host.old) (H.space host.old)) fuel self.new (host_of (H.waiting host.new) (H.written host.new) (H.space host.new)) result }
        ensures stays { Stays self.old self.new }
        ensures frames { HoldsFrames self.new }
        ensures still { result.1 ≡ 0 → stack_of self.new ≡ stack_of self.old }
        ensures kept { H.kept host.old host.new }
    {
        match &mut self.stage {
            Stage::Begun(interpreter) => interpreter.go(host, fuel),
            Stage::Unbegun(_) if fuel == 0 => (Stop::Spent, 0),
            Stage::Unbegun(_) => (Stop::StackFull, 0),
        }
    }
}
