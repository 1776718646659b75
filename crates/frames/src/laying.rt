//! A new frame's cells.
ghost use Rattle.std.specs.Prelude.{◌≡◌, ◌+◌, ◌<◌, ◌≤◌, ◌∷◌, ◌++◌, length, take, drop, replicate, slice_set};
ghost use Rattle.std.proofs.Math.Seq.{paste};

use crate::HEAD;
use format::layout::MethodEntry;

/// The first cells of a frame.
#[derive(Clone, Copy)]
pub(crate) struct Head {
    pub(crate) method: u16,
    pub(crate) return_place: u16,
    pub(crate) caller: u16,
}

/// Lays a frame at `base`: the arguments that stand there move up above its head, and zeros for its locals follow.
pub(crate) fn lay(cells: &mut [u16], base: usize, head: Head, entry: MethodEntry)
    requires { base + 3 + entry.parameters + entry.locals ≤ length cells.old }
    ensures { take (base + 3 + entry.parameters + entry.locals) cells.new ≡ take base cells.old ++ (head.method ∷ head.return_place ∷ head.caller ∷ (take entry.parameters (drop base cells.old) ++ replicate entry.locals 0)) }
{
    let arguments = entry.parameters as usize;
    let variables = base + HEAD;
    raise(cells, base, arguments);
    clear(cells, variables + arguments, entry.locals as usize);
    write_head(cells, base, head);
}

/// Moves cells up by the size of a head, the highest one first. They go one by one, since they are few: `copy_within` first finds out
/// which way to go, and calls take longer by it (docs/DECISIONS.md).
fn raise(cells: &mut [u16], from: usize, count: usize)
    requires { from + 3 + count ≤ length cells.old }
    ensures { cells.new ≡ paste cells.old (from + 3) (drop from cells.old) count }
{
    for k in (0..count).rev() {
        cells[from + HEAD + k] = cells[from + k];
    }
}

/// Writes zeros.
fn clear(cells: &mut [u16], from: usize, count: usize)
    requires { from + count ≤ length cells.old }
    ensures { cells.new ≡ paste cells.old from (replicate count 0) count }
{
    cells[from..from + count].fill(0);
}

/// Writes the cells of a head. They go one by one, since from an array they would be stored and loaded again in another width, for which
/// a call has to wait (docs/DECISIONS.md).
fn write_head(cells: &mut [u16], base: usize, head: Head)
    requires { base + 2 < length cells.old }
    ensures { cells.new ≡ slice_set (slice_set (slice_set cells.old base head.method) (base + 1) head.return_place) (base + 2) head.caller }
{
    cells[base] = head.method;
    cells[base + 1] = head.return_place;
    cells[base + 2] = head.caller;
}
