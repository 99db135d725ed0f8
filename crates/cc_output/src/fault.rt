//! The faults.

ghost use Rattle.std.specs.Prelude.{◌≡◌, IfOk};
ghost use Rattle.cc_output.specs.declared.fault.Fault.{Fault};

use crate::Plan;
use crate::fields::with_text;
use crate::file_words::{dex_status, dex_words, program_status, program_words};
use crate::verify_words::{verify_status, verify_words};
use cc_meaning::fault::{DexFault, ProgramFault, VerifyFault};
use cc_meaning::lists::{Bytes, Units};
use std::alloc::{AllocError, Global};

/// Why a command came to nothing.
#[derive(Drop)]
pub enum Fault {
    /// The words are no command.
    Usage,
    /// The file is no DEX file of version 035.
    Dex(DexFault),
    /// The file's classes are no program.
    Program(ProgramFault),
    /// The method of this name, as `Lc;->add(II)I`, isn't well typed, or it is too wide.
    Verify { method: Units, fault: VerifyFault },
    /// There is no memory.
    Memory,
    /// The file could not be read.
    ReadFault,
    /// The file could not be written.
    WriteFault,
    /// There is no such file.
    Absent,
    /// The file is too long.
    TooLarge,
    /// Programs of this form don't run yet.
    NotBuilt,
}

impl Fault {
    ghost use Rattle.cc_output.specs.Faults.{status_of, words_of, line_of, fault_plan};

    /// The status that the program ends with.
    pub fn status(&self) -> u8
        ensures { result ≡ status_of self.now }
    {
        match self {
            Fault::Usage => 64,
            Fault::Dex(fault) => dex_status(*fault),
            Fault::Program(fault) => program_status(fault),
            Fault::Verify { fault, .. } => verify_status(*fault),
            Fault::Memory => 70,
            Fault::ReadFault => 71,
            Fault::WriteFault => 72,
            Fault::Absent => 73,
            Fault::TooLarge => 74,
            Fault::NotBuilt => 80,
        }
    }

    /// What its line says.
    fn words(&self, alloc: Global, file: &str) -> Result<Vec<u8>, AllocError>
        ensures { IfOk result (λ words. words.items ≡ words_of self.now file.now) }
    {
        match self {
            Fault::Usage => Vec::from_slice(alloc, b"fault 64 Usage"),
            Fault::Dex(fault) => dex_words(alloc, *fault),
            Fault::Program(fault) => program_words(alloc, fault),
            Fault::Verify { method, fault } => verify_words(alloc, method.as_slice(), *fault),
            Fault::Memory => Vec::from_slice(alloc, b"fault 70 Memory"),
            Fault::ReadFault => with_text(alloc, b"fault 71 ReadFault", file),
            Fault::WriteFault => with_text(alloc, b"fault 72 WriteFault", file),
            Fault::Absent => with_text(alloc, b"fault 73 Absent", file),
            Fault::TooLarge => with_text(alloc, b"fault 74 TooLarge", file),
            Fault::NotBuilt => Vec::from_slice(alloc, b"fault 80 NotBuilt"),
        }
    }

    /// The line that tells of it: `fault STATUS CODE NAME FIELDS`, where not every fault has a code or fields. The fields are numbers in decimal or names, in
    /// the order of the fault's own fields. The faults of a file that is read or written have its name, `file`, as their field.
    pub fn line(&self, alloc: Global, file: &str) -> Result<Bytes, AllocError>
        ensures { IfOk result (λ line. line ≡ line_of self.now file.now) }
    {
        let mut line = self.words(alloc, file)?;
        line.push(b'\n')?;
        Ok(Bytes::from_vec(line))
    }

    /// Its status, nothing for out, and its line for notes.
    pub fn plan(self, alloc: Global, file: &str) -> Result<Plan, AllocError>
        ensures { IfOk result (λ plan. plan ≡ fault_plan self file.now) }
    {
        Ok(Plan {
            status: self.status(),
            out: Bytes::new(alloc),
            notes: self.line(alloc, file)?,
        })
    }
}
