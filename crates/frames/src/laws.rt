//! A law of the frames, as the contract of a function, so that the check asks for its proof.
ghost use Rattle.frames.specs.Frames.{CellsAreFrames};

/// The cells below the top are exactly those of the frames.
pub fn cells_are_frames()
    ensures { CellsAreFrames }
{}
