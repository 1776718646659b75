//! The interpreter of a run.
ghost use Rattle.std.specs.Prelude.{◌≡◌, true};
ghost use Rattle.run.specs.Sound.{sound};

use frames::Frames;
use machine::stop::End;
use output::mode::Mode;

/// A program's frames with its sheet, the place of the next instruction, the output mode, and the end, if any.
#[derive(Drop)]
pub(crate) struct Interpreter<'f, 'p, 's> {
    pub(crate) frames: Frames<'f, 's>,
    pub(crate) sheet: &'p [u16],
    pub(crate) place: usize,
    pub(crate) mode: Mode,
    pub(crate) ended: Option<End>,
    ghost sound: { sound frames sheet.now place ≡ true },
}
