//! The rules of the layout. Each is sought through the whole file, and names its first offender.
ghost use Rattle.std.specs.Prelude.{◌≡◌, ◌^◌, ◌<◌, ◌≤◌, not, length, ◌==◌, nat_lt};
ghost use Rattle.std.specs.Option.{option_map};
ghost use Rattle.std.specs.Result.{result_err};
ghost use Rattle.refusals.specs.declared.Rule.TheVariants.{FileTooLong, HeaderCut, WrongMagic, WrongVersion, NoMethod, TablesCut, BadVariables, BadCode, BadDebugBlock, BadMessage, BadProgramName};
ghost use Rattle.format.specs.Search.{first, upto, when};
ghost use Rattle.format.specs.Layout.{byte, methods, messages, entry, tables_end, code_due, debug_due, message_due};
ghost use Rattle.format.specs.Rules.{no_name, wrong_magic, bad_variables, bad_code, bad_debug_block, bad_message, bad_program_name, refused, layout_refusal};

use crate::bytes::{be16_at, be32_at, byte_at};
use crate::layout::{
    code_due, debug_due, debug_head, entry_place, message_count, message_due, method_count,
    method_entry, tables_end,
};
use crate::refuse::refuse_at;
use refusals::{Refusal, Rule};

/// Refuses by the rule at the place, where it is broken.
fn refuse_if(broken: bool, rule: Rule, place: usize) -> Result<(), Refusal>
    ensures { result_err result ≡ refused rule (when broken place) }
{
    refuse_at(rule, broken.then_some(place))
}

/// The file is at most 65,535 bytes long.
fn length_fits(file: &[u8]) -> Result<(), Refusal>
    ensures { result_err result ≡ refused FileTooLong (when (nat_lt 65535 (length file.now)) 0) }
{
    refuse_if(file.len() > 65_535, Rule::FileTooLong, 0)
}

/// The header is whole.
fn header_whole(file: &[u8]) -> Result<(), Refusal>
    ensures { result_err result ≡ refused HeaderCut (when (nat_lt (length file.now) 13) (length file.now)) }
{
    refuse_if(file.len() < 13, Rule::HeaderCut, file.len())
}

/// The file begins with the magic number.
fn magic_right(file: &[u8]) -> Result<(), Refusal>
    ensures { result_err result ≡ refused WrongMagic (when (wrong_magic file.now) 0) }
{
    let right = matches!(file, [0x65, 0x4A, 0x56, 0x4D, ..]);
    refuse_if(!right, Rule::WrongMagic, 0)
}

/// The version is 1.0.
fn version_right(file: &[u8]) -> Result<(), Refusal>
    ensures { result_err result ≡ refused WrongVersion (when (not (byte file.now 4 == 0x10)) 4) }
{
    refuse_if(byte_at(file, 4) != 0x10, Rule::WrongVersion, 4)
}

/// There is a method.
fn some_method(file: &[u8]) -> Result<(), Refusal>
    ensures { result_err result ≡ refused NoMethod (when (methods file.now == 0) 10) }
{
    refuse_if(method_count(file) == 0, Rule::NoMethod, 10)
}

/// The tables are whole.
fn tables_whole(file: &[u8]) -> Result<(), Refusal>
    ensures { result_err result ≡ refused TablesCut (when (nat_lt (length file.now) (tables_end file.now)) (length file.now)) }
{
    refuse_if(file.len() < tables_end(file), Rule::TablesCut, file.len())
}

/// Whether method `k` has too many variables, or is main and has parameters.
fn bad_variables(file: &[u8], k: usize) -> bool
    requires { k < 256 }
    ensures { result ≡ bad_variables file.now k }
{
    let entry = method_entry(file, k);
    entry.variable_count() > 255 || k == 0 && entry.parameters != 0
}

/// Each method has at most 255 variables, and main has no parameters.
fn variables_fit(file: &[u8]) -> Result<(), Refusal>
    ensures { result_err result ≡ refused BadVariables (option_map entry (first (bad_variables file.now) (upto (methods file.now)))) }
{
    let methods = method_count(file) as usize;
    let offender = (0..methods).find(|k| bad_variables(file, *k));
    refuse_at(Rule::BadVariables, offender.map(entry_place))
}

/// Whether the debug head of method `k` passes the end, or its code has no bytes or is not at `due`.
fn bad_code(file: &[u8], k: usize, due: usize) -> bool
    requires { (k < 256) × (due ≡ code_due file.now k) }
    ensures { result ≡ bad_code file.now k }
{
    let entry = method_entry(file, k);
    file.len() < entry.debug as usize + 3
        || debug_head(file, k).code_size == 0
        || entry.code as usize != due
}

/// The code of each method has bytes and stands where it is due.
fn code_in_order(file: &[u8]) -> Result<(), Refusal>
    ensures { result_err result ≡ refused BadCode (option_map entry (first (bad_code file.now) (upto (methods file.now)))) }
{
    // The address that is due runs along: a search would go over the methods before each one again.
    let mut due = tables_end(file);
    for k in 0..method_count(file) as usize {
        if bad_code(file, k, due) {
            return Err(Refusal {
                rule: Rule::BadCode,
                place: entry_place(k),
            });
        }
        due += debug_head(file, k).code_size as usize;
    }
    Ok(())
}

/// Whether no name has `size` bytes.
fn no_name(size: u8) -> bool
    ensures { result ≡ no_name size }
{
    size == 0 || size % 2 == 1
}

/// Whether the debug block of method `k` is not at `due`, or its name is no name or passes the end.
fn bad_debug_block(file: &[u8], k: usize, due: usize) -> bool
    requires { (k < 256) × (due ≡ debug_due file.now k) }
    ensures { result ≡ bad_debug_block file.now k }
{
    let address = method_entry(file, k).debug as usize;
    let size = debug_head(file, k).name_size;
    address != due || no_name(size) || file.len() < address + 3 + size as usize
}

/// The debug block of each method is whole, has a name and stands where it is due.
fn debug_blocks_in_order(file: &[u8]) -> Result<(), Refusal>
    ensures { result_err result ≡ refused BadDebugBlock (option_map entry (first (bad_debug_block file.now) (upto (methods file.now)))) }
{
    let methods = method_count(file) as usize;
    // The address that is due runs along here too.
    let mut due = code_due(file, methods);
    for k in 0..methods {
        if bad_debug_block(file, k, due) {
            return Err(Refusal {
                rule: Rule::BadDebugBlock,
                place: entry_place(k),
            });
        }
        due += 3 + debug_head(file, k).name_size as usize;
    }
    Ok(())
}

/// Whether message `k`, which is due at `due`, is odd, too long or passes the end.
fn bad_message(file: &[u8], k: usize, due: usize) -> bool
    requires { (due ≤ 2 ^ 26) × (due ≡ message_due file.now k) }
    ensures { result ≡ bad_message file.now k }
{
    let size = be16_at(file, due);
    size % 2 == 1 || size > 254 || file.len() < due + 2 + size as usize
}

/// Each message is even, short enough and whole.
fn messages_whole(file: &[u8]) -> Result<(), Refusal>
    ensures { result_err result ≡ refused BadMessage (option_map (message_due file.now) (first (bad_message file.now) (upto (messages file.now)))) }
{
    // And here, where each message says where the next one is due.
    let mut due = debug_due(file, method_count(file) as usize);
    for k in 0..message_count(file) as usize {
        if bad_message(file, k, due) {
            return Err(Refusal {
                rule: Rule::BadMessage,
                place: due,
            });
        }
        due += 2 + be16_at(file, due) as usize;
    }
    Ok(())
}

/// The program name is a name, follows the messages and ends the file.
fn program_named(file: &[u8]) -> Result<(), Refusal>
    ensures { result_err result ≡ refused BadProgramName (when (bad_program_name file.now) 5) }
{
    let size = byte_at(file, 5);
    let address = be32_at(file, 6) as usize;
    let due = message_due(file, message_count(file) as usize);
    refuse_if(
        no_name(size) || address != due || address + size as usize != file.len(),
        Rule::BadProgramName,
        5,
    )
}

/// Keeps every rule of the layout, or refuses by the first that is broken.
pub(crate) fn laid_out(file: &[u8]) -> Result<(), Refusal>
    ensures { result_err result ≡ layout_refusal file.now }
{
    length_fits(file)?;
    header_whole(file)?;
    magic_right(file)?;
    version_right(file)?;
    some_method(file)?;
    tables_whole(file)?;
    variables_fit(file)?;
    code_in_order(file)?;
    debug_blocks_in_order(file)?;
    messages_whole(file)?;
    program_named(file)
}
