//! Small programs: their files, their sheets, and runs of them.
ghost use Rattle.std.specs.Prelude.{IfOk};
ghost use Rattle.verifier.specs.Numbering.{Admitted as IsAdmitted};

use host::Host;
use host::recorder::Recorder;
use machine::stop::{End, Stop};
use run::run::Run;
use std::alloc::{AllocError, Global};
use std::process::Abort;
use std::test::Fail;
use verifier::admit::{Admitted, admit};
use verifier::check::check as check_file;
use verifier::pending::Pending;

/// A method: its parameters, its locals, and its instructions, each of at most 1,000 bytes.
#[derive(Clone, Copy)]
pub(crate) struct Method<'m, 'i> {
    pub(crate) parameters: u8,
    pub(crate) locals: u8,
    pub(crate) code: &'m [&'i [u8]],
}

/// The size of the code in bytes.
fn size_of(code: &[&[u8]]) -> u16 {
    let mut size: u16 = 0;
    for instruction in code {
        size = size.wrapping_add(instruction.len().min(1_000) as u16);
    }
    size
}

/// Adds the code of all methods to the file.
fn extend_by_code(file: &mut Vec<u8>, methods: &[Method]) -> Result<(), AllocError> {
    for method in methods {
        for instruction in method.code {
            file.extend_from_slice(*instruction)?;
        }
    }
    Ok(())
}

/// The file of a program A whose methods all have the name m, and whose messages are empty.
/// The code begins at 13 + 10 times the methods + 2 times the constants.
fn file_of(
    heap: Global,
    methods: &[Method],
    constants: &[u16],
    messages: u8,
) -> Result<Vec<u8>, AllocError> {
    let count = methods.len().min(255) as u8;
    let mut at = 13 + 10 * count as u16 + 2 * constants.len().min(255) as u16;
    let mut block = at;
    for method in methods {
        block = block.wrapping_add(size_of(method.code));
    }
    let name = block
        .wrapping_add(5 * count as u16)
        .wrapping_add(2 * messages as u16);
    let mut file = Vec::from_slice(heap, b"\x65\x4A\x56\x4D\x10\x02\0\0")?;
    file.extend_from_slice(&name.to_be_bytes())?;
    file.extend_from_slice(&[count, constants.len().min(255) as u8, messages])?;
    for method in methods {
        file.extend_from_slice(b"\0\0")?;
        file.extend_from_slice(&at.to_be_bytes())?;
        file.extend_from_slice(&[method.parameters, method.locals, 0, 0])?;
        file.extend_from_slice(&block.to_be_bytes())?;
        at = at.wrapping_add(size_of(method.code));
        block = block.wrapping_add(5);
    }
    for constant in constants {
        file.extend_from_slice(&constant.to_be_bytes())?;
    }
    extend_by_code(&mut file, methods)?;
    for method in methods {
        let [high, low] = size_of(method.code).to_be_bytes();
        file.extend_from_slice(&[2, high, low, 0, b'm'])?;
    }
    for _ in 0..messages {
        file.extend_from_slice(b"\0\0")?;
    }
    file.extend_from_slice(b"\0A")?;
    Ok(file)
}

/// A file, and the sheet that check made of it.
#[derive(Drop)]
pub(crate) struct Program {
    file: Vec<u8>,
    sheet: Vec<u16>,
}

impl Program {
    /// A program of these methods, constants and so many messages.
    pub(crate) fn new(
        heap: Global,
        methods: &[Method],
        constants: &[u16],
        messages: u8,
    ) -> Result<Program, Fail> {
        let file = file_of(heap, methods, constants, messages)?;
        let mut sheet = vec![in heap; 0u16; file.len()]?;
        let mut pending = vec![in heap; Pending {
            place: 0,
            number: 0
        }; file.len()]?;
        match check_file(
            file.as_slice(),
            sheet.as_mut_slice(),
            pending.as_mut_slice(),
        ) {
            Ok(_) => Ok(Program { file, sheet }),
            Err(_) => Err(Fail::new("refused by check")),
        }
    }

    /// A program of these methods.
    pub(crate) fn of_methods(heap: Global, methods: &[Method]) -> Result<Program, Fail> {
        Program::new(heap, methods, &[], 0)
    }

    /// A program of main alone, with so many locals.
    pub(crate) fn of_main(heap: Global, locals: u8, code: &[&[u8]]) -> Result<Program, Fail> {
        let main = Method {
            parameters: 0,
            locals,
            code,
        };
        Program::of_methods(heap, &[main])
    }

    /// The file with its sheet, admitted.
    pub(crate) fn admitted(&self) -> Result<Admitted, Fail>
        ensures { IfOk result (λ a. IsAdmitted a.file.now a.sheet.now) }
    {
        match admit(self.file.as_slice(), self.sheet.as_slice()) {
            Ok(admitted) => Ok(admitted),
            Err(_) => Err(Fail::new("refused by admit")),
        }
    }

    /// A run on these cells makes gos on the host, each with its fuel, and with the stop and the count that it answers.
    pub(crate) fn makes<H: Host>(
        &self,
        rt: &impl Abort,
        cells: &mut [u16],
        host: &mut H,
        goes: &[(u32, Stop, u32)],
    ) -> Result<(), Fail> {
        let mut run = Run::start(self.admitted()?, cells);
        for (fuel, stop, count) in goes {
            let answer = run.go(host, *fuel);
            assert_eq!(rt; answer.0, *stop);
            assert_eq!(rt; answer.1, *count);
        }
        Ok(())
    }

    /// The same on cells enough, with no unit and no room.
    pub(crate) fn makes_alone(
        &self,
        rt: &impl Abort,
        goes: &[(u32, Stop, u32)],
    ) -> Result<(), Fail> {
        let mut cells = [7; 400];
        let mut host = Recorder::open(&mut [], &[]);
        self.makes(rt, &mut cells, &mut host, goes)
    }

    /// Alone, a run ends with this value after so many instructions.
    pub(crate) fn gives(&self, rt: &impl Abort, value: u16, count: u32) -> Result<(), Fail> {
        self.makes_alone(rt, &[(1_000, Stop::Ended(End::Value(value)), count)])
    }
}
