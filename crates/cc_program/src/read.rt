//! From the bytes of a file to its program.

ghost use Rattle.std.specs.Prelude.{◌≡◌, ◌≢◌, IfOk, IfErr};
ghost use Rattle.std.specs.Option.{option_copied};
ghost use Rattle.cc_meaning.specs.declared.program.Program.{Program};
ghost use Rattle.cc_meaning_typing.specs.Complete.{IsComplete};
ghost use Rattle.cc_meaning_program.specs.Asked.{asked_class};
ghost use Rattle.cc_meaning_program.specs.Reading.{SpellsProgram, IsReadFault, OneSpelledProgram};
ghost use Rattle.cc_program_laws.specs.ReadingLaws.{SpelledProgramsAreComplete};

use crate::build::build_program;
use cc_dexcode::read_classes;
use cc_dexids::read_ids;
use cc_meaning::program::Program;
use cc_meaning_dex::{one_classes, one_ids};
use cc_meaning_program::{
    ReadFault, files_have_descriptors, one_program, sound_bodies_have_none,
    sound_classes_have_no_fault, spelled_code_is_small,
};
use cc_program_laws::{
    programs_are_complete, spelled_classes_fit, spelled_parts_are_bounded, spelled_tables_fit,
};
use std::alloc::Global;

/// A file spells one program at most, for each main class that may be asked for.
pub fn one_spelled_program()
    ensures { OneSpelledProgram }
{
    one_ids();
    one_classes();
    files_have_descriptors();
    one_program();
}

/// The program that a file spells is complete: what the interpreter needs of a program follows from the file's bytes alone.
pub fn spelled_programs_are_complete()
    ensures { SpelledProgramsAreComplete }
{
    spelled_tables_fit();
    spelled_classes_fit();
    spelled_parts_are_bounded();
    programs_are_complete();
}

/// The program that a file spells, with this main class, or with the first that has a main method.
///
/// # Errors
///
/// The first fault. `Dex`: of the header and the tables, then of the classes' data. `Program`: as `build_program` names it. At any time that there is
/// no memory.
///
/// Source: Dalvik Executable format, section File layout.
pub fn read_dex(alloc: Global, file: &[u8], main: Option<&str>) -> Result<Program, ReadFault>
    ensures spelled { IfOk result (SpellsProgram file.now (asked_class (option_copied main.entry))) }
    ensures complete { IfOk result IsComplete }
    ensures fault { IfErr result (λ fault. fault ≢ ReadFault.Memory → IsReadFault file.now (asked_class (option_copied main.entry)) fault) }
    ensures refused { IfErr result (λ fault. fault ≢ ReadFault.Memory → ((program : Program) → ¬ SpellsProgram file.now (asked_class (option_copied main.entry)) program)) }
{
    spelled_tables_fit();
    spelled_classes_fit();
    spelled_code_is_small();
    one_ids();
    one_classes();
    sound_classes_have_no_fault();
    sound_bodies_have_none();
    spelled_programs_are_complete();
    let ids = read_ids(alloc, file)?;
    let classes = read_classes(alloc, file, &ids)?;
    Ok(build_program(alloc, &ids, &classes, main)?)
}
