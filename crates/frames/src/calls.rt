//! Frames laid and taken off: main's, a called method's, and the return to its caller.
ghost use Rattle.std.specs.Prelude.{◌≡◌, ◌+◌, ◌≤◌, false, [], ◌∷◌, length, drop};
ghost use Rattle.format.specs.Layout.{parameters, locals};
ghost use Rattle.format.specs.Tables.{entry_of};
ghost use Rattle.machine.specs.Machine.{Frame, State, with_operands, main};
ghost use Rattle.machine.specs.Go.{frames_size, cells_used};
ghost use Rattle.frames.specs.Frames.{running, waiting, size, alone, called, Kept};

use crate::laying::{Head, lay};
use crate::{Frames, HEAD};
use format::layout::{MethodEntry, method_entry};

/// What main's frame has for the place and the base of the caller that it lacks. It stands in cells, so it is a number and no Option.
const NONE: u16 = 65_535;

impl<'f, 's> Frames<'f, 's> {
    /// Main's frame, alone on these cells. Only for the crates above, whose main has no parameters and fits.
    pub fn open(file: &'f [u8], cells: &'s mut [u16]) -> Frames<'f, 's>
        requires plain { parameters file.now 0 ≡ 0 }
        requires room { 3 + locals file.now 0 ≤ cells_used (length cells.old) }
        ensures lent { result.cells.ghost_name ≡ cells.entry.ghost_name }
        ensures size { size result ≡ length cells.old }
        ensures file { result.file.now ≡ file.now }
        ensures running { running result ≡ (main file.now).running }
        ensures waiting { waiting result ≡ [] }
    {
        let entry = method_entry(file, 0);
        Frames::open_main(file, cells, entry)
    }

    /// Lays main's frame, by its entry. Apart from `open`, since its proof is written by hand.
    fn open_main(file: &'f [u8], cells: &'s mut [u16], entry: MethodEntry) -> Frames<'f, 's>
        requires plain { parameters file.now 0 ≡ 0 }
        requires room { 3 + locals file.now 0 ≤ cells_used (length cells.old) }
        requires entry { entry ≡ entry_of file.now 0 }
        ensures lent { result.cells.ghost_name ≡ cells.entry.ghost_name }
        ensures size { size result ≡ length cells.old }
        ensures file { result.file.now ≡ file.now }
        ensures running { running result ≡ (main file.now).running }
        ensures waiting { waiting result ≡ [] }
    {
        let head = Head {
            method: 0,
            return_place: NONE,
            caller: NONE,
        };
        lay(cells, 0, head, entry);
        Frames {
            file,
            cells,
            base: 0,
            top: HEAD + entry.locals as usize,
            depth: 0,
        }
    }

    /// Lays a called method's frame, whose parameters come off its caller's operands. Only for the crates above, which call
    /// where there are as many operands and the frame fits.
    pub fn enter(&mut self, method: u8, return_place: u16)
        requires some { parameters self.old.file.now method ≤ length (running self.old).operands }
        requires room { frames_size (running self.old ∷ waiting self.old) + 3 + locals self.old.file.now method ≤ cells_used (size self.old) }
        ensures kept { Kept self.old self.new }
        ensures running { running self.new ≡ called self.old.file.now method return_place (running self.old).operands }
        ensures waiting { waiting self.new ≡ with_operands (running self.old) (drop (parameters self.old.file.now method) (running self.old).operands) ∷ waiting self.old }
    {
        let entry = method_entry(self.file, method as usize);
        self.enter_by(entry, method, return_place);
    }

    /// Lays a called method's frame, by its entry. Apart from `enter`, since its proof is written by hand.
    fn enter_by(&mut self, entry: MethodEntry, method: u8, return_place: u16)
        requires some { parameters self.old.file.now method ≤ length (running self.old).operands }
        requires room { frames_size (running self.old ∷ waiting self.old) + 3 + locals self.old.file.now method ≤ cells_used (size self.old) }
        requires entry { entry ≡ entry_of self.old.file.now method }
        ensures kept { Kept self.old self.new }
        ensures running { running self.new ≡ called self.old.file.now method return_place (running self.old).operands }
        ensures waiting { waiting self.new ≡ with_operands (running self.old) (drop (parameters self.old.file.now method) (running self.old).operands) ∷ waiting self.old }
    {
        let base = self.top - entry.parameters as usize;
        let head = Head {
            method: method as u16,
            return_place,
            caller: self.base as u16,
        };
        lay(self.cells, base, head, entry);
        self.base = base;
        self.top += HEAD + entry.locals as usize;
        self.depth += 1;
    }

    /// Takes the running frame off, and answers the place where its caller goes on. Only for the crates above, which leave
    /// where a caller waits.
    pub fn leave(&mut self) -> u16
        requires callers { alone (waiting self.old) ≡ false }
        ensures kept { Kept self.old self.new }
        ensures place { result ≡ (running self.old).return_place }
        ensures frames { waiting self.old ≡ running self.new ∷ waiting self.new }
    {
        let place = self.return_place();
        self.drop_frame();
        place
    }

    /// Where the running frame's caller goes on.
    fn return_place(&self) -> u16
        ensures { result ≡ (running self.now).return_place }
    {
        self.cells[self.base + 1]
    }

    /// Lowers the top below the running frame, and goes on with its caller's.
    fn drop_frame(&mut self)
        requires callers { alone (waiting self.old) ≡ false }
        ensures kept { Kept self.old self.new }
        ensures frames { waiting self.old ≡ running self.new ∷ waiting self.new }
    {
        let caller = self.cells[self.base + 2];
        self.top = self.base;
        self.base = caller as usize;
        self.depth -= 1;
    }
}
