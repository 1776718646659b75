//! Instructions as text: the name, and the arguments as decimal numbers.
#![tactic(auto)]

ghost use Rattle.std.specs.Prelude.{◌≡◌, IfOk, Some, string_bytes};
ghost use Rattle.mnemonics.specs.Mnemonics.{name_of, operands_of, operands_text, instruction_text};

use bytecode::instruction::Instruction;
use std::alloc::{AllocError, Global};
use std::fmt;

/// The arguments of an instruction. A number or a distance is its sixteen bits.
#[derive(Clone, Copy)]
pub enum Operands {
    None,
    Index(u8),
    Number(u16),
    IndexAndNumber(u8, u16),
}

/// What follows the name: each argument after a space, numbers and distances as signed.
impl fmt::Display for Operands {
    ghost output = { λ operands. Some (operands_text operands) };

    fn fmt<W: fmt::Write>(&self, f: &mut fmt::Formatter<W>) -> fmt::Result {
        match *self {
            Operands::None => Ok(()),
            Operands::Index(index) => write!(f, " {index}"),
            Operands::Number(bits) => write!(f, " {}", bits.cast_signed()),
            Operands::IndexAndNumber(index, bits) => write!(f, " {index} {}", bits.cast_signed()),
        }
    }
}

/// The instruction's name.
pub fn name_of(instruction: Instruction) -> &'static str
    ensures { result.now ≡ name_of instruction }
{
    match instruction {
        Instruction::Nop => "NOP",
        Instruction::Wide => "WIDE",
        Instruction::Bipush(_) => "BIPUSH",
        Instruction::Ldc(_) => "LDC",
        Instruction::Iload(_) => "ILOAD",
        Instruction::Istore(_) => "ISTORE",
        Instruction::Pop => "POP",
        Instruction::Dup => "DUP",
        Instruction::Swap => "SWAP",
        Instruction::Iadd => "IADD",
        Instruction::Isub => "ISUB",
        Instruction::Iand => "IAND",
        Instruction::Ior => "IOR",
        Instruction::Iinc(_, _) => "IINC",
        Instruction::Ifeq(_) => "IFEQ",
        Instruction::Iflt(_) => "IFLT",
        Instruction::IfIcmpeq(_) => "IF_ICMPEQ",
        Instruction::Goto(_) => "GOTO",
        Instruction::Ireturn => "IRETURN",
        Instruction::Return => "RETURN",
        Instruction::Invokevirtual(_) => "INVOKEVIRTUAL",
        Instruction::In => "IN",
        Instruction::Out => "OUT",
        Instruction::Err(_) => "ERR",
        Instruction::Setout(_) => "SETOUT",
        Instruction::Halt => "HALT",
    }
}

/// The instruction's arguments.
pub fn operands_of(instruction: Instruction) -> Operands
    ensures { result ≡ operands_of instruction }
{
    match instruction {
        Instruction::Ldc(index)
        | Instruction::Iload(index)
        | Instruction::Istore(index)
        | Instruction::Invokevirtual(index)
        | Instruction::Err(index)
        | Instruction::Setout(index) => Operands::Index(index),
        Instruction::Bipush(bits)
        | Instruction::Ifeq(bits)
        | Instruction::Iflt(bits)
        | Instruction::IfIcmpeq(bits)
        | Instruction::Goto(bits) => Operands::Number(bits),
        Instruction::Iinc(index, bits) => Operands::IndexAndNumber(index, bits),
        Instruction::Nop
        | Instruction::Wide
        | Instruction::Pop
        | Instruction::Dup
        | Instruction::Swap
        | Instruction::Iadd
        | Instruction::Isub
        | Instruction::Iand
        | Instruction::Ior
        | Instruction::Ireturn
        | Instruction::Return
        | Instruction::In
        | Instruction::Out
        | Instruction::Halt => Operands::None,
    }
}

/// The instruction as text.
pub fn text(heap: Global, instruction: Instruction) -> Result<String, AllocError>
    ensures { IfOk result (λ s. string_bytes s ≡ instruction_text instruction) }
{
    let name = name_of(instruction);
    let operands = operands_of(instruction);
    format!(in heap; "{name}{operands}")
}
