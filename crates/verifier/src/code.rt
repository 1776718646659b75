//! The code of a file, once it passes its rules.
ghost use Rattle.std.specs.Prelude.{◌≡◌, ◌<◌, None, IfOk};
ghost use Rattle.std.specs.Result.{result_err};
ghost use Rattle.std.proofs.Props.{props};
ghost use Rattle.format.specs.Layout.{methods};
ghost use Rattle.format.specs.Parts.{Accepted};
ghost use Rattle.bytecode.specs.Flow.{Marked};
ghost use Rattle.bytecode.specs.Rules.{code_refusal};

use bytecode::flow::value_methods;
use bytecode::rules::code_sound;
use refusals::Refusal;

/// A file whose layout and code pass their rules, and which of its methods return a value.
#[derive(Drop)]
pub(crate) struct Code<'f> {
    pub file: &'f [u8],
    pub returns_value: [bool; 256],
    ghost few: { methods file.now < 256 },
    ghost layout: { Accepted file.now } by { Prim.hlevel props },
    ghost sound: { code_refusal file.now ≡ None } by { Prim.hlevel props },
    ghost marked: { Marked file.now returns_value },
}

impl<'f> Code<'f> {
    /// Holds the code of a file whose layout passes to its rules.
    pub(crate) fn of(file: &'f [u8]) -> Result<Code<'f>, Refusal>
        requires { Accepted file.now }
        ensures refuses { result_err result ≡ code_refusal file.now }
        ensures holds { IfOk result (λ c. c.file.now ≡ file.now) }
    {
        code_sound(file)?;
        let returns_value = value_methods(file);
        Ok(Code {
            file,
            returns_value,
        })
    }
}
