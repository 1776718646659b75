//! The bytes of the instruction at the place: its opcode, and its arguments after it.
ghost use Rattle.std.specs.Prelude.{◌≡◌, ◌+◌, ◌≤◌};
ghost use Rattle.format.specs.Layout.{byte, be16};
ghost use Rattle.run.specs.Standing.{program};

use crate::interpreter::Interpreter;

impl<'f, 'p, 's> Interpreter<'f, 'p, 's> {
    /// The opcode.
    pub(crate) fn opcode(&self) -> u8
        ensures { result ≡ byte (program self.now) self.now.place }
    {
        self.frames.file[self.place]
    }

    /// The index after the opcode.
    pub(crate) fn index(&self) -> u8
        ensures { result ≡ byte (program self.now) (self.now.place + 1) }
    {
        self.frames.file[self.place + 1]
    }

    /// The number or the distance so many bytes after the opcode's place.
    pub(crate) fn number_at(&self, offset: usize) -> u16
        requires { offset ≤ 2 }
        ensures { result ≡ be16 (program self.now) (self.now.place + offset) }
    {
        let at = self.place + offset;
        u16::from_be_bytes([self.frames.file[at], self.frames.file[at + 1]])
    }
}
