//! The rules of the code. Each is sought through the whole file, and names its first offender.
ghost use Rattle.std.specs.Prelude.{◌≡◌, ℕ, ◌+◌, ◌<◌, ◌≤◌, Bool, not, length, Option};
ghost use mathlib.Core.List.{Memᴰ};
ghost use Rattle.std.specs.Option.{option_map};
ghost use Rattle.std.specs.Result.{result_err};
ghost use Rattle.refusals.specs.declared.Rule.TheVariants.{BadInstruction, BadIndex, BadTarget, MixedReturns};
ghost use Rattle.format.specs.Search.{first, upto};
ghost use Rattle.format.specs.Layout.{methods, code_address};
ghost use Rattle.format.specs.Rules.{refused};
ghost use Rattle.format.specs.Parts.{Accepted};
ghost use Rattle.bytecode.specs.Places.{Point, points, places, code_end, whole};
ghost use Rattle.bytecode.specs.Rules.{bad_instruction, bad_index, bad_target, mixed_returns, code_refusal};

use crate::decode::instruction_at;
use crate::flow::target;
use crate::instruction::Instruction;
use crate::opcodes::{IRETURN, RETURN};
use crate::places::{code_places, code_range, holds, instruction_end, is_place};
use format::layout::{constant_count, message_count, method_count, method_entry};
use format::refuse::refuse_at;
use refusals::{Refusal, Rule};

/// Whether the instruction at `place` is unknown or passes the method's end.
fn bad_instruction(file: &[u8], place: usize, end: usize) -> bool
    requires { (place < end) × ((end ≤ length file.now) × (end < 65536)) }
    ensures { result ≡ not (whole file.now end place) }
{
    instruction_end(file, place, end).is_none()
}

/// The first place of method `k` whose instruction is unknown or passes the method's end, which is found once.
fn first_bad_instruction(file: &[u8], k: usize) -> Option<usize>
    requires { (Accepted file.now) × (k < methods file.now) }
    ensures { result ≡ first (λ p. bad_instruction file.now (record { method = k; place = p })) (places file.now k) }
{
    let end = code_range(file, k).end;
    code_places(file, k).find(|place| bad_instruction(file, *place, end))
}

/// Whether the index of the instruction at `place`, in method `k`, is outside its table.
fn bad_index(file: &[u8], k: usize, place: usize) -> bool
    requires { (k < 256) × (place + 4 ≤ length file.now) }
    ensures { result ≡ bad_index file.now (record { method = k; place = place }) }
{
    let Some(instruction) = instruction_at(file, place) else {
        return false;
    };
    match instruction {
        Instruction::Iload(i) | Instruction::Istore(i) | Instruction::Iinc(i, _) => {
            i as u16 >= method_entry(file, k).variable_count()
        }
        Instruction::Ldc(i) => i >= constant_count(file),
        Instruction::Invokevirtual(i) => i >= method_count(file),
        Instruction::Err(i) => i >= message_count(file),
        Instruction::Setout(i) => i > 2,
        _ => false,
    }
}

/// Whether the instruction at `place`, in method `k`, is a jump that leads to no place of the method.
fn bad_target(file: &[u8], k: usize, place: usize) -> bool
    requires { (Accepted file.now) × ((k < methods file.now) × ((place + 4 ≤ length file.now) × (place < 65536))) }
    ensures { result ≡ bad_target file.now (record { method = k; place = place }) }
{
    match instruction_at(file, place) {
        Some(
            Instruction::Ifeq(distance)
            | Instruction::Iflt(distance)
            | Instruction::IfIcmpeq(distance)
            | Instruction::Goto(distance),
        ) => !is_place(file, k, target(place, distance)),
        _ => false,
    }
}

/// Every method of the file keeps the rule: `first_offender` says of a method which of its places breaks it first. Only for the crates
/// above: the layout of the file is accepted.
pub fn every_method_keeps<F: Fn(usize) -> Option<usize>>(
    file: &[u8],
    rule: Rule,
    first_offender: F,
) -> Result<(), Refusal>
    requires layout { Accepted file.now }
    requires callable { (k : ℕ) → k < methods file.now → F.pre first_offender k }
    ensures { (broken : Point → Bool) → ((k : ℕ) (o : Option ℕ) → F.post first_offender k o → o ≡ first (λ p. broken (record { method = k; place = p })) (places file.now k)) → result_err result ≡ refused rule (option_map (λ (x : Point). x.place) (first broken (points file.now))) }
{
    let methods = method_count(file) as usize;
    for k in 0..methods {
        if let Some(place) = first_offender(k) {
            return Err(Refusal { rule, place });
        }
    }
    Ok(())
}

/// Every instruction of the file keeps the rule: `breaks` says of a method and a place of it whether the instruction there breaks it. Only for
/// the crates above: the layout of the file is accepted.
pub fn every_place_keeps<F: Fn(usize, usize) -> bool>(
    file: &[u8],
    rule: Rule,
    breaks: F,
) -> Result<(), Refusal>
    requires layout { Accepted file.now }
    requires callable { (k p : ℕ) → k < methods file.now → Memᴰ p (places file.now k) → F.pre breaks k p }
    ensures { (broken : Point → Bool) → ((k p : ℕ) (b : Bool) → F.post breaks k p b → b ≡ broken (record { method = k; place = p })) → result_err result ≡ refused rule (option_map (λ (x : Point). x.place) (first broken (points file.now))) }
{
    for k in 0..method_count(file) as usize {
        let found = code_places(file, k).find(
            |place|
                requires { F.pre breaks k place.now }
            { breaks(k, *place) },
        );
        if let Some(place) = found {
            return Err(Refusal { rule, place });
        }
    }
    Ok(())
}

/// Every instruction is known and ends in its method.
fn instructions_whole(file: &[u8]) -> Result<(), Refusal>
    requires { Accepted file.now }
    ensures { result_err result ≡ refused BadInstruction (option_map (λ (x : Point). x.place) (first (bad_instruction file.now) (points file.now))) }
{
    every_method_keeps(
        file,
        Rule::BadInstruction,
        |k| first_bad_instruction(file, k),
    )
}

/// Every index is inside its table.
fn indices_inside(file: &[u8]) -> Result<(), Refusal>
    requires { Accepted file.now }
    ensures { result_err result ≡ refused BadIndex (option_map (λ (x : Point). x.place) (first (bad_index file.now) (points file.now))) }
{
    every_place_keeps(file, Rule::BadIndex, |k, place| bad_index(file, k, place))
}

/// Every jump leads to a place of its method.
fn targets_inside(file: &[u8]) -> Result<(), Refusal>
    requires { Accepted file.now }
    ensures { result_err result ≡ refused BadTarget (option_map (λ (x : Point). x.place) (first (bad_target file.now) (points file.now))) }
{
    every_place_keeps(file, Rule::BadTarget, |k, place| bad_target(file, k, place))
}

/// Whether method `k` has both kinds of return, or neither.
fn mixed_returns(file: &[u8], k: usize) -> bool
    requires { (Accepted file.now) × (k < methods file.now) }
    ensures { result ≡ mixed_returns file.now k }
{
    holds(file, k, IRETURN) == holds(file, k, RETURN)
}

/// Every method has one kind of return.
fn returns_of_one_kind(file: &[u8]) -> Result<(), Refusal>
    requires { Accepted file.now }
    ensures { result_err result ≡ refused MixedReturns (option_map (code_address file.now) (first (mixed_returns file.now) (upto (methods file.now)))) }
{
    let methods = method_count(file) as usize;
    let offender = (0..methods).find(|k| mixed_returns(file, *k));
    refuse_at(
        Rule::MixedReturns,
        offender.map(|k| code_range(file, k).start),
    )
}

/// Keeps every rule of the code, or refuses by the first that is broken. Only for the verifier: the layout of the file is accepted.
pub fn code_sound(file: &[u8]) -> Result<(), Refusal>
    requires { Accepted file.now }
    ensures { result_err result ≡ code_refusal file.now }
{
    instructions_whole(file)?;
    indices_inside(file)?;
    targets_inside(file)?;
    returns_of_one_kind(file)
}
