//! A walk over the places of a method.
ghost use Rattle.std.specs.Prelude.{◌+◌, ◌<◌, ◌≤◌, length};

use crate::places::next_place;

/// The places of a method that are left, from `place` on.
#[derive(Drop)]
pub struct Places<'f> {
    pub(crate) file: &'f [u8],
    pub(crate) place: usize,
    pub(crate) end: usize,
    ghost inside: { (end + 4 ≤ length file.now) × (length file.now < 65536) },
}

impl<'f> Iterator for Places<'f> {
    ghost use Rattle.std.specs.Iterator.{YieldsFirst, item_count};
    ghost use Rattle.bytecode.specs.Walk.{left};

    type Item = usize;

    ghost next_gives = { YieldsFirst left };

    ghost remaining = { item_count left };

    #[tactic(auto, using(crate::proofs::Walks::left_none, crate::proofs::Walks::left_more))]
    fn next(&mut self) -> Option<usize> {
        if self.place >= self.end {
            return None;
        }
        let place = self.place;
        self.place = next_place(self.file, place, self.end);
        Some(place)
    }
}
