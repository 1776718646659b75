//! What the engine says when it refuses: the rule that is broken, and where.
#![tactic(auto)]

ghost use Rattle.std.specs.Prelude.{◌≡◌, Some};
ghost use Rattle.refusals.specs.Refusals.{number_of, layer_of, refused_text};

use std::error::Error;
use std::fmt;

/// A rule that a file, a sheet or a host call can break. The cases stand in the order of their numbers, and each has its number.
#[derive(Clone, Copy, PartialEq, Eq, Debug)]
pub enum Rule {
    /// The file is over 65,535 bytes long.
    FileTooLong = 1,
    /// The file is shorter than its header.
    HeaderCut = 2,
    /// The file does not begin with the magic number.
    WrongMagic = 3,
    /// The version byte is not 0x10.
    WrongVersion = 4,
    /// The method table is empty.
    NoMethod = 5,
    /// The file ends inside its tables.
    TablesCut = 6,
    /// A method has over 255 variables, or main has parameters.
    BadVariables = 7,
    /// A method's code is empty, not where it is due, or its size is past the file's end.
    BadCode = 8,
    /// A method's debug block is not where it is due, or its name is no name.
    BadDebugBlock = 9,
    /// A message is odd, too long or passes the file's end.
    BadMessage = 10,
    /// The program name is no name, not where it is due, or does not end the file.
    BadProgramName = 11,
    /// The sheet or the pending memory has fewer entries than the file has bytes.
    MemoryShort = 12,
    /// An opcode is unknown, or its instruction passes the method's end.
    BadInstruction = 13,
    /// An index is outside its table.
    BadIndex = 14,
    /// A jump leads to no instruction of its method.
    BadTarget = 15,
    /// A method's code has both kinds of return or neither.
    MixedReturns = 16,
    /// No numbering of a method keeps the sheet's rule.
    NoNumbering = 17,
    /// A place breaks the sheet's rule.
    BadNumber = 18,
    /// A peak of the sheet is wrong.
    BadPeak = 19,
    /// A unit is keyed on a full line.
    LineFull = 20,
    /// A unit is put where there is no room.
    NoRoom = 21,
}

/// The layer of the engine that a rule belongs to.
#[derive(Clone, Copy, PartialEq, Eq, Debug)]
pub enum Layer {
    File,
    Code,
    Host,
}

/// The rule that is broken, and the byte where.
#[derive(Clone, Copy, PartialEq, Eq, Debug)]
pub struct Refusal {
    pub rule: Rule,
    pub place: usize,
}

impl Rule {
    /// The rule's number, 1 to 21.
    pub fn number(self) -> u8
        ensures { result ≡ number_of self }
    {
        self as u8
    }

    /// The layer that the rule belongs to.
    pub fn layer(self) -> Layer
        ensures { result ≡ layer_of self }
    {
        match self {
            Rule::FileTooLong
            | Rule::HeaderCut
            | Rule::WrongMagic
            | Rule::WrongVersion
            | Rule::NoMethod
            | Rule::TablesCut
            | Rule::BadVariables
            | Rule::BadCode
            | Rule::BadDebugBlock
            | Rule::BadMessage
            | Rule::BadProgramName => Layer::File,
            Rule::MemoryShort
            | Rule::BadInstruction
            | Rule::BadIndex
            | Rule::BadTarget
            | Rule::MixedReturns
            | Rule::NoNumbering
            | Rule::BadNumber
            | Rule::BadPeak => Layer::Code,
            Rule::LineFull | Rule::NoRoom => Layer::Host,
        }
    }
}

/// The rule's number and the place, as they are told.
impl fmt::Display for Refusal {
    ghost output = { λ x. Some (refused_text x) };

    fn fmt<W: fmt::Write>(&self, f: &mut fmt::Formatter<W>) -> fmt::Result {
        let number = self.rule.number();
        let place = self.place;
        write!(f, "refused {number} {place}")
    }
}

impl Error for Refusal {}
