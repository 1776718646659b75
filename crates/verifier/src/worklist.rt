//! The worklist of check: it numbers what a method's start reaches.
ghost use Rattle.std.specs.Prelude.{◌≡◌, ◌+◌, ◌<◌, ◌≤◌, [], length, nat_lt};
ghost use Rattle.ring.specs.Ring.{items, capacity};
ghost use Rattle.format.specs.Layout.{methods};
ghost use Rattle.verifier.specs.Bytes.{bytes};
ghost use Rattle.verifier.specs.Numbering.{blank, blanks, number};
ghost use Rattle.verifier.specs.Worklist.{Work, pend_if, turn, turns_left, ClosedTo, Complete};

use crate::code::Code;
use crate::pending::Pending;
use crate::point::Point;
use crate::sheet::{BLANK, entry_at};
use bytecode::flow::successors;
use bytecode::places::code_range;
use bytecode::successors::Successors;
use format::layout::method_count;
use ring::Ring;

// The sheet and the line stay parameters of their own: a struct of both would have to say, at each method, that it still lends the same sheet.

/// Numbers a place before `end` that is still blank, and lets it wait.
fn give(sheet: &mut [u16], line: &mut Ring<Pending>, end: usize, place: usize, depth: u8)
    requires short { end < 65536 }
    requires long { end ≤ length sheet.old }
    requires room { place < end → number sheet.old place ≡ blank → length (items line.old) < capacity line.old }
    ensures work { ◌≡◌ {A = Work} (record { sheet = sheet.new; pending = items line.new }) (pend_if (nat_lt place end) depth (record { sheet = sheet.old; pending = items line.old }) place) }
    ensures same { capacity line.new ≡ capacity line.old }
{
    if place < end && entry_at(sheet, place) == BLANK {
        let number = u16::from(depth);
        sheet[place] = number;
        let Ok(()) = line.push(Pending {
            place: place as u16,
            number,
        }) else {
            unreachable()
        };
    }
}

/// One turn: the place that waited gives the depth after it to its successors.
fn go_on(point: &Point, sheet: &mut [u16], line: &mut Ring<Pending>, depth: u8)
    requires long { length sheet.old ≡ length (bytes point.now.code.now) }
    requires room { turns_left (bytes point.now.code.now) point.now.method (record { sheet = sheet.old; pending = items line.old }) ≤ capacity line.old }
    ensures work { ◌≡◌ {A = Work} (record { sheet = sheet.new; pending = items line.new }) (turn (bytes point.now.code.now) point.now.method (record { sheet = sheet.old; pending = items line.old }) (record { place = point.now.place; number = depth })) }
    ensures same { capacity line.new ≡ capacity line.old }
{
    let Some(result) = point.result(depth) else {
        return;
    };
    let end = point.range.end;
    match successors(point.code.file, point.place) {
        Successors::Nowhere => {}
        Successors::One(next) => give(sheet, line, end, next, result),
        Successors::Two(target, next) => {
            give(sheet, line, end, target, result);
            give(sheet, line, end, next, result);
        }
    }
}

/// Numbers what the start of method `k` reaches.
fn number_method(code: &Code, k: usize, sheet: &mut [u16], line: &mut Ring<Pending>)
    requires method { k < methods (bytes code.now) }
    requires closed { ClosedTo (bytes code.now) k sheet.old }
    requires empty { items line.old ≡ [] }
    requires room { length (bytes code.now) ≤ capacity line.old }
    ensures closed { ClosedTo (bytes code.now) (k + 1) sheet.new }
    ensures empty { items line.new ≡ [] }
    ensures same { capacity line.new ≡ capacity line.old }
{
    let range = code_range(code.file, k);
    give(sheet, line, range.end, range.start, 0);
    while let Some(waited) = line.pop() {
        let point = code.point(k, range, waited.place as usize);
        go_on(&point, sheet, line, waited.number as u8);
    }
}

/// Numbers what the methods' starts reach, in a sheet that is blank. The memory has as many entries as the file has bytes, or more.
pub(crate) fn number_methods(code: &Code, sheet: &mut [u16], memory: &mut [Pending])
    requires blank { sheet.old ≡ blanks (bytes code.now) }
    requires room { length (bytes code.now) ≤ length memory.old }
    ensures { Complete (bytes code.now) sheet.new }
{
    let mut line = Ring::new(memory);
    for k in 0..method_count(code.file) as usize {
        number_method(code, k, sheet, &mut line);
    }
}
