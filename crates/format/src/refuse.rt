//! Refusals by a rule at the place where it is broken.
ghost use Rattle.std.specs.Prelude.{◌≡◌};
ghost use Rattle.std.specs.Result.{result_err};
ghost use Rattle.format.specs.Rules.{refused};

use refusals::{Refusal, Rule};

/// Refuses by the rule at the place of its first offender, where there is one.
pub fn refuse_at(rule: Rule, place: Option<usize>) -> Result<(), Refusal>
    ensures { result_err result ≡ refused rule place }
{
    match place {
        Some(place) => Err(Refusal { rule, place }),
        None => Ok(()),
    }
}
