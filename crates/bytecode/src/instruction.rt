//! Instructions, taken apart from their bytes.

/// An instruction with its arguments. A number or a distance is its sixteen bits, two's complement.
#[derive(Clone, Copy)]
pub enum Instruction {
    Nop,
    Wide,
    Bipush(u16),
    Ldc(u8),
    Iload(u8),
    Istore(u8),
    Pop,
    Dup,
    Swap,
    Iadd,
    Isub,
    Iand,
    Ior,
    Iinc(u8, u16),
    Ifeq(u16),
    Iflt(u16),
    IfIcmpeq(u16),
    Goto(u16),
    Ireturn,
    Return,
    Invokevirtual(u8),
    In,
    Out,
    Err(u8),
    Setout(u8),
    Halt,
}
