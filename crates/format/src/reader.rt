//! A reader over the bytes of an accepted file.
ghost use Rattle.std.specs.Prelude.{◌≡◌, true, is_some, is_ok, IfOk, Decides, nat_lt};
ghost use Rattle.std.specs.Option.{option_map};
ghost use Rattle.std.specs.Result.{result_err};
ghost use Rattle.format.specs.Layout.{methods, constants, messages};
ghost use Rattle.format.specs.Rules.{layout_refusal};
ghost use Rattle.format.specs.Sound.{Sound};
ghost use Rattle.format.specs.Parts.{Accepted, seen, program_name, method_name, method_code, method_variables, constant, message};

use crate::layout::{constant_count, message_count, method_count, method_entry};
use crate::part;
use crate::part::Part;
use crate::rules::laid_out;
use refusals::Refusal;

/// How many variables of each kind a method has.
#[derive(Clone, Copy, PartialEq, Eq, Debug)]
pub struct Variables {
    pub parameters: u8,
    pub locals: u8,
}

/// A file whose layout is accepted. Its parts are answered with their places.
#[derive(Clone, Copy)]
pub struct Reader<'a> {
    bytes: &'a [u8],
    pub ghost accepted: { Accepted bytes.now },
}

/// Reads a file of any length and content: refuses it by the first rule of the layout that it breaks, and accepts it just if its layout is sound.
pub fn read<'a>(file: &'a [u8]) -> Result<Reader<'a>, Refusal>
    ensures refuses { result_err result ≡ layout_refusal file.now }
    ensures keeps { IfOk result (λ reader. reader.bytes.now ≡ file.now) }
    ensures sound { Decides (is_ok result) (Sound file.now) }
{
    laid_out(file)?;
    Ok(Reader { bytes: file })
}

impl<'a> Reader<'a> {
    /// How many methods there are.
    pub fn methods(&self) -> u8
        ensures { result ≡ methods self.now.bytes.now }
    {
        method_count(self.bytes)
    }

    /// How many constants there are.
    pub fn constants(&self) -> u8
        ensures { result ≡ constants self.now.bytes.now }
    {
        constant_count(self.bytes)
    }

    /// How many messages there are.
    pub fn messages(&self) -> u8
        ensures { result ≡ messages self.now.bytes.now }
    {
        message_count(self.bytes)
    }

    /// The program's name.
    pub fn program_name(&self) -> Option<Part<'a>>
        ensures is { option_map seen result ≡ program_name self.now.bytes.now }
        ensures there { is_some result ≡ true }
    {
        part::program_name(self.bytes)
    }

    /// The name of method `index`.
    pub fn method_name(&self, index: usize) -> Option<Part<'a>>
        ensures is { option_map seen result ≡ method_name self.now.bytes.now index }
        ensures there { is_some result ≡ nat_lt index (methods self.now.bytes.now) }
    {
        part::method_name(self.bytes, index)
    }

    /// The code of method `index`.
    pub fn method_code(&self, index: usize) -> Option<Part<'a>>
        ensures is { option_map seen result ≡ method_code self.now.bytes.now index }
        ensures there { is_some result ≡ nat_lt index (methods self.now.bytes.now) }
    {
        part::method_code(self.bytes, index)
    }

    /// How many variables method `index` has.
    pub fn method_variables(&self, index: usize) -> Option<Variables>
        ensures { result ≡ method_variables self.now.bytes.now index }
    {
        if index >= self.methods() as usize {
            return None;
        }
        let entry = method_entry(self.bytes, index);
        Some(Variables {
            parameters: entry.parameters,
            locals: entry.locals,
        })
    }

    /// Constant `index`, its two bytes.
    pub fn constant(&self, index: usize) -> Option<Part<'a>>
        ensures is { option_map seen result ≡ constant self.now.bytes.now index }
        ensures there { is_some result ≡ nat_lt index (constants self.now.bytes.now) }
    {
        part::constant(self.bytes, index)
    }

    /// Message `index`, without its two size bytes.
    pub fn message(&self, index: usize) -> Option<Part<'a>>
        ensures is { option_map seen result ≡ message self.now.bytes.now index }
        ensures there { is_some result ≡ nat_lt index (messages self.now.bytes.now) }
    {
        part::message(self.bytes, index)
    }
}
