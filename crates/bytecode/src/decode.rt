//! Instructions taken apart from their bytes, the opcode followed by its arguments.
ghost use Rattle.std.specs.Prelude.{◌≡◌, ◌+◌, ◌*◌, ◌≤◌, length, drop, IfSome, MatchOption};
ghost use Rattle.std.specs.Option.{option_map};
ghost use Rattle.format.specs.Layout.{byte};
ghost use Rattle.bytecode.specs.Encoding.{Encodes};
ghost use Rattle.bytecode.specs.Opcodes.{length_of, decode};

use crate::instruction::Instruction;

/// The number in two bytes.
fn number(high: u8, low: u8) -> u16
    ensures { result ≡ high * 256 + low }
{
    u16::from_be_bytes([high, low])
}

/// The instruction at the front of the bytes, and the bytes after it; nothing if the opcode is unknown or its arguments are cut.
pub fn decode(bytes: &[u8]) -> Option<(Instruction, &[u8])>
    ensures is { option_map (λ x. x.0) result ≡ decode bytes.now }
    ensures rest { IfSome result (λ x. x.1.now ≡ drop (length_of (byte bytes.now 0)) bytes.now) }
    ensures from { IfSome result (λ x. Encodes bytes.now 0 x.0) }
{
    match bytes {
        [0x00, rest @ ..] => Some((Instruction::Nop, rest)),
        [0xC4, rest @ ..] => Some((Instruction::Wide, rest)),
        [0x10, high, low, rest @ ..] => Some((Instruction::Bipush(number(*high, *low)), rest)),
        [0x12, index, rest @ ..] => Some((Instruction::Ldc(*index), rest)),
        [0x15, index, rest @ ..] => Some((Instruction::Iload(*index), rest)),
        [0x36, index, rest @ ..] => Some((Instruction::Istore(*index), rest)),
        [0x57, rest @ ..] => Some((Instruction::Pop, rest)),
        [0x59, rest @ ..] => Some((Instruction::Dup, rest)),
        [0x5F, rest @ ..] => Some((Instruction::Swap, rest)),
        [0x60, rest @ ..] => Some((Instruction::Iadd, rest)),
        [0x64, rest @ ..] => Some((Instruction::Isub, rest)),
        [0x7E, rest @ ..] => Some((Instruction::Iand, rest)),
        [0x80, rest @ ..] => Some((Instruction::Ior, rest)),
        [0x84, index, high, low, rest @ ..] => Some((
            Instruction::Iinc(*index, number(*high, *low)),
            rest,
        )),
        [0x99, high, low, rest @ ..] => Some((Instruction::Ifeq(number(*high, *low)), rest)),
        [0x9B, high, low, rest @ ..] => Some((Instruction::Iflt(number(*high, *low)), rest)),
        [0x9F, high, low, rest @ ..] => Some((Instruction::IfIcmpeq(number(*high, *low)), rest)),
        [0xA7, high, low, rest @ ..] => Some((Instruction::Goto(number(*high, *low)), rest)),
        [0xAC, rest @ ..] => Some((Instruction::Ireturn, rest)),
        [0xB1, rest @ ..] => Some((Instruction::Return, rest)),
        [0xB6, index, rest @ ..] => Some((Instruction::Invokevirtual(*index), rest)),
        [0xF0, rest @ ..] => Some((Instruction::In, rest)),
        [0xF1, rest @ ..] => Some((Instruction::Out, rest)),
        [0xF2, index, rest @ ..] => Some((Instruction::Err(*index), rest)),
        [0xFA, index, rest @ ..] => Some((Instruction::Setout(*index), rest)),
        [0xFF, rest @ ..] => Some((Instruction::Halt, rest)),
        _ => None,
    }
}

/// The instruction at `place` of the file and the bytes after it, if its opcode is known: four bytes stand there.
fn decode_at(file: &[u8], place: usize) -> Option<(Instruction, &[u8])>
    requires { place + 4 ≤ length file.now }
    ensures is { option_map (λ x. x.0) result ≡ decode (drop place file.now) }
    ensures at { MatchOption result (length_of (byte file.now place) ≡ 0) (λ x. Encodes file.now place x.0) }
{
    decode(&file[place..])
}

/// The instruction at `place` of the file, if its opcode is known. Only for the crates above: four bytes of the file stand there.
pub fn instruction_at(file: &[u8], place: usize) -> Option<Instruction>
    requires { place + 4 ≤ length file.now }
    ensures is { result ≡ decode (drop place file.now) }
    ensures at { MatchOption result (length_of (byte file.now place) ≡ 0) (λ i. Encodes file.now place i) }
{
    decode_at(file, place).map(|(instruction, _)| instruction)
}
