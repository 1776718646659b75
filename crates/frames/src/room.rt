//! How many cells the frames take, of how many.
ghost use Rattle.std.specs.Prelude.{◌≡◌, ◌∷◌};
ghost use Rattle.machine.specs.Go.{frames_size, cells_used};
ghost use Rattle.frames.specs.Frames.{running, waiting, size, alone};

use crate::{Frames, MOST_CELLS};

impl<'f, 's> Frames<'f, 's> {
    /// The first cell above all frames.
    #[tactic(auto, using(crate::proofs::Parts::ends))]
    pub fn top(&self) -> usize
        ensures { result ≡ frames_size (running self.now ∷ waiting self.now) }
    {
        self.top
    }

    /// How many cells frames can take.
    pub fn capacity(&self) -> usize
        ensures { result ≡ cells_used (size self.now) }
    {
        self.cells.len().min(MOST_CELLS)
    }

    /// Whether no frame waits below the running one.
    #[tactic(auto, using(crate::proofs::Parts::callers))]
    pub fn is_only(&self) -> bool
        ensures { result ≡ alone (waiting self.now) }
    {
        self.depth == 0
    }
}
