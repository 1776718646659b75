//! A place of the code.
ghost use Rattle.std.specs.Prelude.{◌≡◌, ◌+◌, ◌<◌, ◌≤◌, true, length};
ghost use Rattle.format.specs.Layout.{methods, code_address};
ghost use Rattle.bytecode.specs.Places.{code_end, is_place};
ghost use Rattle.verifier.specs.Bytes.{bytes};
ghost use Rattle.verifier.specs.Verdicts.{Place};

use crate::code::Code;
use bytecode::places::CodeRange;

/// A place of the code with its method, and where the code of that begins and ends.
#[derive(Drop)]
pub(crate) struct Point<'c, 'f> {
    pub code: &'c Code<'f>,
    pub method: usize,
    pub range: CodeRange,
    pub place: usize,
    ghost listed: { method < methods (bytes code.now) },
    ghost starts: { range.start ≡ code_address (bytes code.now) method },
    ghost ends: { range.end ≡ code_end (bytes code.now) method },
    ghost inside: { (range.end + 4 ≤ length (bytes code.now)) × (length (bytes code.now) < 65536) },
    ghost decoded: { is_place (bytes code.now) method place ≡ true },
}

impl<'f> Code<'f> {
    /// A place of the method, which has it, by the range of its code: that is found once for all its places.
    pub(crate) fn point<'c>(
        &'c self,
        method: usize,
        range: CodeRange,
        place: usize,
    ) -> Point<'c, 'f>
        requires place { Place (bytes self.now) method place }
        requires starts { range.start ≡ code_address (bytes self.now) method }
        requires ends { range.end ≡ code_end (bytes self.now) method }
        requires inside { (range.end + 4 ≤ length (bytes self.now)) × (length (bytes self.now) < 65536) }
        ensures { (result.code.now ≡ self.now) × (result.method ≡ method) × (result.place ≡ place) }
    {
        Point {
            code: self,
            method,
            range,
            place,
        }
    }
}
