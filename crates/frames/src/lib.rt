//! The frames of a run: its methods' frames one upon the other on lent cells of sixteen bits.

#![tactic(auto)]

ghost use Rattle.std.specs.Prelude.{◌≡◌, ◌+◌, ◌≤◌, true, length, take, slice_index};
ghost use Rattle.frames.specs.Laid.{variables_of, laid};

mod calls;
pub mod laws;
mod laying;
mod operands;
mod room;
mod variables;

/// The cells of a frame before its variables: its method, the place where its caller goes on, its caller's base.
pub const HEAD: usize = 3;

/// How many cells of a stack are used at most: the base of a frame has sixteen bits, and 65,535 is none.
pub const MOST_CELLS: usize = 65_535;

/// The frames of a run of the program in `file`.
///
/// A frame lies upward on the cells: its method, the place where its caller goes on, its caller's base, its variables,
/// and its operands in the order of pushing. Main's frame begins at cell 0, and has 65,535 for the place and for the
/// base of the caller that it lacks. A called method's frame begins where its arguments stood on its caller's operands.
#[derive(Drop)]
pub struct Frames<'f, 's> {
    pub file: &'f [u8],
    cells: &'s mut [u16],
    /// where the running frame begins
    base: usize,
    /// the first cell above it
    top: usize,
    /// how many frames wait below it
    depth: usize,
    ghost whole: { base + 3 + variables_of file.now (slice_index cells.now base) ≤ top },
    ghost inside: { top ≤ length cells.now },
    ghost used: { top ≤ 65535 },
    ghost below: { laid file.now depth (take base cells.now) (slice_index cells.now (base + 2)) ≡ true },
}
