//! A program that the check accepts.
ghost use Rattle.std.specs.Prelude.{◌≡◌, ◌<◌, None};
ghost use Rattle.format.specs.Layout.{methods};
ghost use Rattle.bytecode.specs.Rules.{code_refusal};

use format::reader::Reader;

/// A file that breaks no rule of the layout or the code, its reader, and a sheet of it. The file counts its methods in a byte.
#[derive(Drop)]
pub(crate) struct Program<'a> {
    pub(crate) file: &'a [u8],
    pub(crate) reader: Reader<'a>,
    pub(crate) sheet: &'a [u16],
    ghost reads: { reader.bytes.now ≡ file.now },
    ghost few: { methods file.now < 256 },
    ghost code: { code_refusal file.now ≡ None },
}
