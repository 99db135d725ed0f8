//! The one call.

ghost use Rattle.std.specs.Prelude.{◌≢◌, Ok, Err, IfOk, IfErr};
ghost use Rattle.std.specs.Option.{option_copied};
ghost use Rattle.cc_meaning_program.specs.Asked.{asked_class};
ghost use Rattle.cc_check.specs.Checking.{IsChecked, OneChecked};
ghost use Rattle.cc_check.specs.declared.fault.CheckFault.TheVariants as faults;

use crate::fault::CheckFault;
use crate::load::load_program;
use crate::summary::{Summary, summarize};
use cc_meaning_typing::law_one_first_fault;
use cc_program::one_spelled_program;
use cc_program_laws::{
    one_read_fault, spelled_programs_are_hierarchies, spelled_programs_have_no_fault,
};
use std::alloc::Global;

/// Checking finds one thing at most of a file, for each main class that may be asked for.
pub fn one_checked()
    ensures { OneChecked }
{
    one_spelled_program();
    one_read_fault();
    spelled_programs_have_no_fault();
    spelled_programs_are_hierarchies();
    law_one_first_fault();
}

/// What the program has that a file spells, with this main class, or with the first that has a main method, where it is well typed and no method is too
/// wide.
///
/// # Errors
///
/// The file's first fault, as `load_program` names it. At any time `Memory`: there is no memory.
///
/// Source: Dalvik Executable format, section File layout; Dalvik bytecode; Dalvik executable constraints.
pub fn check_bytes(alloc: Global, file: &[u8], main: Option<&str>) -> Result<Summary, CheckFault>
    ensures accepted { IfOk result (λ summary. IsChecked file.now (asked_class (option_copied main.entry)) (Ok summary)) }
    ensures refused { IfErr result (λ fault. fault ≢ faults.Memory → IsChecked file.now (asked_class (option_copied main.entry)) (Err fault)) }
{
    let verified = load_program(alloc, file, main)?;
    Ok(summarize(verified.program()))
}
