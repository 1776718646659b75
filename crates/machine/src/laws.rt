//! Laws of the plain machine and of rows of go calls, each as the contract of a function, so that the check asks for its proof.
//! The laws of the rows on one file with one sheet stand in the contract of the start of a run (crate run).
ghost use Rattle.machine.specs.Rows.{KeepsLevel, Follows, RowsKeepLevel, NeverBegins, SameUnits, FirstUnits, Regroups, EarlyUnits};

/// The operands of an admitted file's run are as many as its sheet says, and the run is never astray.
pub fn keeps_level()
    ensures { KeepsLevel }
{}

/// A row is where the plain machine is after as many instructions as its counts add up to.
pub fn rows_follow()
    ensures { Follows }
{}

/// A row keeps the sheet's numbers, inside a go too, and each instruction that it counts is done.
pub fn rows_keep_level()
    ensures { RowsKeepLevel }
{}

/// A row whose main frame does not fit does nothing.
pub fn rows_never_begin()
    ensures { NeverBegins }
{}

/// What a row does depends on its units and on its counts' sum alone.
pub fn rows_same_units()
    ensures { SameUnits }
{}

/// What a row writes begins what it writes with more units and more instructions.
pub fn rows_first_units()
    ensures { FirstUnits }
{}

/// Two goes do what one does with the fuel of both.
pub fn goes_regroup()
    ensures { Regroups }
{}

/// Units that arrive after a go may arrive before it.
pub fn units_early()
    ensures { EarlyUnits }
{}
