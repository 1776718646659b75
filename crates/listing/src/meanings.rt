//! What each rule says is wrong.
ghost use Rattle.std.specs.Prelude.{◌≡◌};
ghost use Rattle.listing.specs.Meanings.{meaning};

use refusals::Rule;

/// The rule's meaning in plain words.
#[tactic(auto, unfolding(crate::specs::Meanings::meaning))]
pub(crate) fn meaning_of(rule: Rule) -> &'static str
    ensures { result.now ≡ meaning rule }
{
    match rule {
        Rule::FileTooLong => "the file is over 65535 bytes long",
        Rule::HeaderCut => "the file is shorter than its 13 header bytes",
        Rule::WrongMagic => "the file does not begin with 65 4A 56 4D",
        Rule::WrongVersion => "the version byte is not 10",
        Rule::NoMethod => "there is no method",
        Rule::TablesCut => "the file ends inside its tables",
        Rule::BadVariables => "a method has over 255 variables, or main has parameters",
        Rule::BadCode => {
            "a method's code is empty or not where it is due, or its debug block passes the end"
        }
        Rule::BadDebugBlock => {
            "a method's debug block is not where it is due, or its name is odd, empty or passes the end"
        }
        Rule::BadMessage => "a message is odd, over 254 bytes or passes the end",
        Rule::BadProgramName => {
            "the program name is odd, empty, not right after the messages or not at the end"
        }
        Rule::MemoryShort => {
            "the sheet or the pending memory has fewer entries than the file has bytes"
        }
        Rule::BadInstruction => "an opcode is unknown, or its instruction passes the method's end",
        Rule::BadIndex => {
            "an index is outside the variables, constants, methods or messages, or an output mode is over 2"
        }
        Rule::BadTarget => "a jump leads to no instruction of its method",
        Rule::MixedReturns => "a method has both kinds of return or neither",
        Rule::NoNumbering => "no numbering of a method keeps the rule",
        Rule::BadNumber => "a place breaks the sheet's rule",
        Rule::BadPeak => "a peak in the sheet is wrong",
        Rule::LineFull => "a unit is keyed on a full line",
        Rule::NoRoom => "a unit is put where there is no room",
    }
}
