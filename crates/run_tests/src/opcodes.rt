//! The opcodes, written out once more.

pub(crate) const NOP: u8 = 0x00;

pub(crate) const BIPUSH: u8 = 0x10;

pub(crate) const LDC: u8 = 0x12;

pub(crate) const ILOAD: u8 = 0x15;

pub(crate) const ISTORE: u8 = 0x36;

pub(crate) const POP: u8 = 0x57;

pub(crate) const DUP: u8 = 0x59;

pub(crate) const SWAP: u8 = 0x5F;

pub(crate) const IADD: u8 = 0x60;

pub(crate) const ISUB: u8 = 0x64;

pub(crate) const IAND: u8 = 0x7E;

pub(crate) const IOR: u8 = 0x80;

pub(crate) const IINC: u8 = 0x84;

pub(crate) const IFEQ: u8 = 0x99;

pub(crate) const IFLT: u8 = 0x9B;

pub(crate) const ICMPEQ: u8 = 0x9F;

pub(crate) const GOTO: u8 = 0xA7;

pub(crate) const IRETURN: u8 = 0xAC;

pub(crate) const RETURN: u8 = 0xB1;

pub(crate) const CALL: u8 = 0xB6;

pub(crate) const WIDE: u8 = 0xC4;

pub(crate) const IN: u8 = 0xF0;

pub(crate) const OUT: u8 = 0xF1;

pub(crate) const ERR: u8 = 0xF2;

pub(crate) const SETOUT: u8 = 0xFA;

pub(crate) const HALT: u8 = 0xFF;
