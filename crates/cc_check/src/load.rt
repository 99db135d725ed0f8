//! From the bytes of a file to its well typed program.

ghost use Rattle.std.specs.Prelude.{◌≡◌, ◌≢◌, Some, MatchOption, IfOk, IfErr};
ghost use Rattle.std.specs.Option.{option_copied};
ghost use Rattle.cc_meaning.specs.declared.fault.VerifyFault.TheVariants as verify;
ghost use Rattle.cc_meaning_typing.specs.Complete.{IsComplete};
ghost use Rattle.cc_meaning_typing.specs.Faults.{IsFirstFault};
ghost use Rattle.cc_meaning_program.specs.Asked.{asked_class};
ghost use Rattle.cc_check.specs.Checking.{IsAccepted, IsRefused, NamesFault, faulty_method};
ghost use Rattle.cc_check.specs.declared.fault.CheckFault.TheVariants as faults;

use crate::fault::CheckFault;
use cc_meaning::fault::VerifyFault;
use cc_meaning::lists::MethodIx;
use cc_meaning::program::Program;
use cc_program::read_dex;
use cc_program_names::method_name;
use cc_types::Verified;
use cc_verify::verify;
use std::alloc::Global;

/// The number of the method that a fault is of.
#[tactic(auto, unfolding(crate::specs::Checking::faulty_method))]
fn faulty_method(fault: VerifyFault) -> Option<MethodIx>
    ensures { result ≡ faulty_method fault }
{
    match fault {
        VerifyFault::IllTyped { method, .. }
        | VerifyFault::BadTarget { method, .. }
        | VerifyFault::FallsOff { method }
        | VerifyFault::TooWide { method }
        | VerifyFault::UnknownMember { method, .. } => Some(method),
        VerifyFault::Memory => None,
    }
}

/// The first fault of a program, with the name of its method.
fn named(alloc: Global, program: &Program, fault: VerifyFault) -> CheckFault
    requires { fault ≢ verify.Memory → IsFirstFault program.now fault }
    ensures { result ≢ faults.Memory → NamesFault program.now fault result }
{
    let Some(number) = faulty_method(fault) else {
        return CheckFault::Memory;
    };
    let method = program.methods.at(number as usize);
    match method_name(alloc, program, method) {
        Ok(method) => CheckFault::Verify { method, fault },
        Err(_) => CheckFault::Memory,
    }
}

/// The program that a file spells, with this main class, or with the first that has a main method, where it is well typed and no method is too wide.
///
/// # Errors
///
/// The file's first fault: `Dex` and `Program` as `read_dex` names it, and `Verify` as `verify` names it. At any time `Memory`: there is no memory.
///
/// Source: Dalvik Executable format, section File layout; Dalvik bytecode; Dalvik executable constraints.
pub fn load_program(alloc: Global, file: &[u8], main: Option<&str>) -> Result<Verified, CheckFault>
    ensures accepted { IfOk result (IsAccepted file.now (asked_class (option_copied main.entry))) }
    ensures complete { IfOk result IsComplete }
    ensures refused { IfErr result (λ fault. fault ≢ faults.Memory → IsRefused file.now (asked_class (option_copied main.entry)) fault) }
{
    let program = read_dex(alloc, file, main)?;
    match verify(alloc, program) {
        Ok(verified) => Ok(verified),
        Err((program, fault)) => Err(named(alloc, &program, fault)),
    }
}
