//! What a file's tables say of its parts, and where each part is due.
ghost use Rattle.std.specs.Prelude.{◌≡◌, ◌+◌, ◌^◌, ◌<◌, ◌≤◌};
ghost use Rattle.format.specs.Layout.{methods, constants, messages, entry, tables_end, code_due, debug_due, message_due};
ghost use Rattle.format.specs.Tables.{entry_of, head_of};

use crate::bytes::{be16_at, be32_at, byte_at};

/// A method's entry in the table: the address of its code, its variables, and the address of its debug block.
#[derive(Clone, Copy, PartialEq, Eq, Debug)]
pub struct MethodEntry {
    pub code: u32,
    pub parameters: u8,
    pub locals: u8,
    pub debug: u32,
}

impl MethodEntry {
    /// How many variables the method has.
    pub fn variable_count(self) -> u16
        ensures { result ≡ self.parameters + self.locals }
    {
        self.parameters as u16 + self.locals as u16
    }
}

/// The head of a method's debug block: the sizes of its name and of its code.
#[derive(Clone, Copy, PartialEq, Eq, Debug)]
pub struct DebugHead {
    pub name_size: u8,
    pub code_size: u16,
}

/// How many methods there are.
pub fn method_count(file: &[u8]) -> u8
    ensures { result ≡ methods file.now }
{
    byte_at(file, 10)
}

/// How many constants there are.
pub fn constant_count(file: &[u8]) -> u8
    ensures { result ≡ constants file.now }
{
    byte_at(file, 11)
}

/// How many messages there are.
pub fn message_count(file: &[u8]) -> u8
    ensures { result ≡ messages file.now }
{
    byte_at(file, 12)
}

/// Where the entry of method `k` begins. Only for the crates above, whose methods are below 256.
pub fn entry_place(k: usize) -> usize
    requires { k < 256 }
    ensures { result ≡ entry k }
{
    13 + 10 * k
}

/// The entry of method `k`. Only for the crates above, whose methods are below 256.
pub fn method_entry(file: &[u8], k: usize) -> MethodEntry
    requires { k < 256 }
    ensures { result ≡ entry_of file.now k }
{
    let at = entry_place(k);
    MethodEntry {
        code: be32_at(file, at),
        parameters: byte_at(file, at + 4),
        locals: byte_at(file, at + 5),
        debug: be32_at(file, at + 6),
    }
}

/// The head of the debug block of method `k`, at the address that its entry holds. Only for the crates above, whose methods are below 256.
pub fn debug_head(file: &[u8], k: usize) -> DebugHead
    requires { k < 256 }
    ensures { result ≡ head_of file.now k }
{
    let at = method_entry(file, k).debug as usize;
    DebugHead {
        name_size: byte_at(file, at),
        code_size: be16_at(file, at + 1),
    }
}

/// Where the tables end.
pub(crate) fn tables_end(file: &[u8]) -> usize
    ensures is { result ≡ tables_end file.now }
    ensures small { result < 4096 }
{
    13 + 10 * method_count(file) as usize + 2 * constant_count(file) as usize
}

/// Where the code of method `k` is due.
pub(crate) fn code_due(file: &[u8], k: usize) -> usize
    requires { k < 256 }
    ensures is { result ≡ code_due file.now k }
    ensures small { result ≤ 2 ^ 24 }
{
    // The turns of the loop are the steps of the definition; a sum would need its bound and those steps shown besides.
    let mut due = tables_end(file);
    for i in 0..k {
        due += debug_head(file, i).code_size as usize;
    }
    due
}

/// Where the debug block of method `k` is due.
pub(crate) fn debug_due(file: &[u8], k: usize) -> usize
    requires { k < 256 }
    ensures is { result ≡ debug_due file.now k }
    ensures small { result ≤ 2 ^ 25 }
{
    // As for the code.
    let mut due = code_due(file, method_count(file) as usize);
    for i in 0..k {
        due += 3 + debug_head(file, i).name_size as usize;
    }
    due
}

/// Where message `k` is due.
pub(crate) fn message_due(file: &[u8], k: usize) -> usize
    requires { k < 256 }
    ensures is { result ≡ message_due file.now k }
    ensures small { result ≤ 2 ^ 26 }
{
    // Each message says where the next one is due.
    let mut due = debug_due(file, method_count(file) as usize);
    for i in 0..k {
        due += 2 + be16_at(file, due) as usize;
    }
    due
}
