//! The sheet's rule at a place.
ghost use Rattle.std.specs.Prelude.{◌≡◌, ◌<◌, ◌&&◌, ◌==◌, nat_lt};
ghost use Rattle.format.specs.Search.{first, all, when};
ghost use Rattle.format.specs.Layout.{methods};
ghost use Rattle.bytecode.specs.Places.{places, is_place, successors};
ghost use Rattle.verifier.specs.Bytes.{bytes};
ghost use Rattle.verifier.specs.Numbering.{number, depth_after, balanced, keeps, breaks};

use crate::code::Code;
use crate::point::Point;
use crate::sheet::{BLANK, entry_at};
use bytecode::flow::{leaves_at, successors, takes_at};
use bytecode::places::{code_places, code_range};
use bytecode::successors::Successors;

/// Whether `place` is inside the code that ends at `end` and has the number.
fn has_number(sheet: &[u16], end: usize, place: usize, depth: u8) -> bool
    ensures { result ≡ (nat_lt place end && (number sheet.now place) == depth) }
{
    place < end && entry_at(sheet, place) == u16::from(depth)
}

impl Point<'_, '_> {
    /// The depth of the operand stack after the instruction, where it is `depth` before; nothing if values lack or it gets too deep.
    pub(crate) fn result(&self, depth: u8) -> Option<u8>
        ensures { result ≡ when (balanced (bytes self.now.code.now) self.now.place depth) (depth_after (bytes self.now.code.now) self.now.place depth) }
    {
        let left = depth.checked_sub(takes_at(self.code.file, self.place))?;
        left.checked_add(leaves_at(self.code.file, &self.code.returns_value, self.place))
    }

    /// Whether each successor is a place of the method with the number.
    fn leads_on(&self, sheet: &[u16], depth: u8) -> bool
        ensures { result ≡ all (λ q. is_place (bytes self.now.code.now) self.now.method q && number sheet.now q == depth) (successors (bytes self.now.code.now) self.now.place) }
    {
        let end = self.range.end;
        match successors(self.code.file, self.place) {
            Successors::Nowhere => true,
            Successors::One(next) => has_number(sheet, end, next, depth),
            Successors::Two(target, next) => {
                has_number(sheet, end, target, depth) && has_number(sheet, end, next, depth)
            }
        }
    }

    /// Whether the place, which is numbered, keeps the rule.
    fn keeps(&self, sheet: &[u16], depth: u8) -> bool
        ensures { result ≡ keeps (bytes self.now.code.now) sheet.now (record { method = self.now.method; place = self.now.place }) depth }
    {
        match self.result(depth) {
            Some(result) => self.leads_on(sheet, result),
            None => false,
        }
    }

    /// Whether the place breaks the rule.
    pub(crate) fn breaks(&self, sheet: &[u16]) -> bool
        ensures { result ≡ breaks (bytes self.now.code.now) sheet.now (record { method = self.now.method; place = self.now.place }) }
    {
        let entry = entry_at(sheet, self.place);
        if self.place == self.range.start && entry != 0 {
            return true;
        }
        match u8::try_from(entry) {
            Ok(depth) => !self.keeps(sheet, depth),
            Err(_) => entry != BLANK,
        }
    }
}

/// The first place of method `k` that breaks the rule.
pub(crate) fn first_break(code: &Code, sheet: &[u16], k: usize) -> Option<usize>
    requires { k < methods (bytes code.now) }
    ensures { result ≡ first (λ p. breaks (bytes code.now) sheet.now (record { method = k; place = p })) (places (bytes code.now) k) }
{
    let range = code_range(code.file, k);
    code_places(code.file, k).find(|place| code.point(k, range, *place).breaks(sheet))
}
