//! A run.
use crate::interpreter::Interpreter;

/// A run of an admitted file.
#[derive(Drop)]
pub struct Run<'f, 'p, 's> {
    pub(crate) stage: Stage<'f, 'p, 's>,
}

/// Where a run is.
#[derive(Drop)]
pub(crate) enum Stage<'f, 'p, 's> {
    Begun(Interpreter<'f, 'p, 's>),
    Unbegun(Lent<'f, 'p, 's>),
}

/// What a run was lent on which main's frame does not fit, so that it never begins: it has no frame and is at no instruction.
#[derive(Drop)]
pub(crate) struct Lent<'f, 'p, 's> {
    pub(crate) file: &'f [u8],
    pub(crate) sheet: &'p [u16],
    pub(crate) cells: &'s mut [u16],
}
