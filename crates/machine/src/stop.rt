//! How a run ends, and why a go on it stops.
ghost use Rattle.std.specs.Prelude.{Some};
ghost use Rattle.machine.specs.Words.{end_words, stop_words};

use std::fmt;

/// How a run ends.
#[derive(Clone, Copy, PartialEq, Eq, Debug)]
pub enum End {
    /// Main returned no value.
    Plain,
    /// Main returned this value, a sixteen-bit pattern.
    Value(u16),
    /// By HALT.
    Halt,
    /// By ERR, with the number of a message.
    Error(u8),
}

/// Why a go stops.
#[derive(Clone, Copy, PartialEq, Eq, Debug)]
pub enum Stop {
    /// The run ended.
    Ended(End),
    /// The fuel is used up.
    Spent,
    /// No unit waits for IN.
    NoUnit,
    /// The host's room is short of OUT's units.
    NoRoom,
    /// A frame does not fit on the stack.
    StackFull,
}

/// A value is told as signed.
impl fmt::Display for End {
    ghost output = { λ e. Some (end_words e) };

    fn fmt<W: fmt::Write>(&self, f: &mut fmt::Formatter<W>) -> fmt::Result {
        match self {
            End::Plain => write!(f, "return"),
            End::Value(bits) => {
                let value = bits.cast_signed();
                write!(f, "value {value}")
            }
            End::Halt => write!(f, "halt"),
            End::Error(message) => write!(f, "error {message}"),
        }
    }
}

impl fmt::Display for Stop {
    ghost output = { λ s. Some (stop_words s) };

    fn fmt<W: fmt::Write>(&self, f: &mut fmt::Formatter<W>) -> fmt::Result {
        match self {
            Stop::Ended(end) => write!(f, "{end}"),
            Stop::Spent => write!(f, "spent"),
            Stop::NoUnit => write!(f, "waiting"),
            Stop::NoRoom => write!(f, "full"),
            Stop::StackFull => write!(f, "deep"),
        }
    }
}
