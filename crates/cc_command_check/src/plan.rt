//! What the words of `check` come to, before anything is written.

ghost use Rattle.std.specs.Prelude.{◌≡◌, ◌≢◌, [], IfOk, map, string_bytes};
ghost use Rattle.std.specs.Option.{option_copied, option_map};
ghost use Rattle.cc_outside.specs.Shelves.{NeverFall};
ghost use Rattle.cc_check.specs.declared.fault.CheckFault.TheVariants as checks;
ghost use Rattle.cc_output.specs.Faults.{fault_plan};
ghost use Rattle.cc_command_check.specs.Calls.{call_of};
ghost use Rattle.cc_command_check.specs.Plans.{fault_of, shown_plan, BytesPlan, FilePlan, CallPlan, CheckPlan};

use crate::summary::summary_plan;
use crate::{CheckCall, check_help, read_check, version};
use cc_check::{CheckFault, check_bytes};
use cc_meaning::lists::Bytes;
use cc_output::{Fault, Plan};
use cc_outside::{ReadEnd, Shelf};
use std::alloc::{AllocError, Global};

/// The longest file that is read, in bytes.
pub const LONGEST_FILE: u64 = 8_388_608;

/// The plan of a file that was refused.
fn refused_plan(alloc: Global, fault: CheckFault) -> Result<Plan, AllocError>
    ensures { IfOk result (λ plan. (fault ≢ checks.Memory) × (plan ≡ fault_plan (fault_of fault) [])) }
{
    let fault = match fault {
        CheckFault::Dex(fault) => Fault::Dex(fault),
        CheckFault::Program(fault) => Fault::Program(fault),
        CheckFault::Verify { method, fault } => Fault::Verify { method, fault },
        CheckFault::Memory => return Err(AllocError),
    };
    fault.plan(alloc, "")
}

/// Checks the bytes of a file.
fn bytes_plan(alloc: Global, file: &[u8], main: Option<&str>) -> Result<Plan, AllocError>
    ensures { IfOk result (BytesPlan file.now (option_copied main.entry)) }
{
    match check_bytes(alloc, file, main) {
        Ok(summary) => summary_plan(alloc, summary),
        Err(fault) => refused_plan(alloc, fault),
    }
}

/// Reads a file and checks it.
fn file_plan<S: Shelf>(
    alloc: Global,
    name: &str,
    main: Option<&str>,
    shelf: &mut S,
) -> Result<Plan, AllocError>
    ensures plan { IfOk result (λ plan. FilePlan (S.known shelf.old) (S.counts shelf.old) name.now (option_copied main.entry) (S.counts shelf.new) plan) }
    ensures known { S.known shelf.new ≡ S.known shelf.old }
    ensures counts { NeverFall (S.counts shelf.old) (S.counts shelf.new) }
{
    match shelf.read(name, LONGEST_FILE) {
        Ok(bytes) => bytes_plan(alloc, bytes.as_slice(), main),
        Err(ReadEnd::Failed) => Fault::ReadFault.plan(alloc, name),
        Err(ReadEnd::Absent) => Fault::Absent.plan(alloc, name),
        Err(ReadEnd::TooLarge) => Fault::TooLarge.plan(alloc, name),
        Err(ReadEnd::Memory) => Err(AllocError),
    }
}

/// A text that is shown, with the status 0.
fn shown_plan(alloc: Global, text: &[u8]) -> Result<Plan, AllocError>
    ensures { IfOk result (λ plan. plan ≡ shown_plan text.now) }
{
    Ok(Plan {
        status: 0,
        out: Bytes::from_slice(alloc, text)?,
        notes: Bytes::new(alloc),
    })
}

/// Does what is called for, but for the writing.
fn call_plan<S: Shelf>(
    alloc: Global,
    call: CheckCall<'_>,
    shelf: &mut S,
) -> Result<Plan, AllocError>
    ensures plan { IfOk result (λ plan. CallPlan (call_of call.entry) (S.known shelf.old) (S.counts shelf.old) (S.counts shelf.new) plan) }
    ensures known { S.known shelf.new ≡ S.known shelf.old }
    ensures counts { NeverFall (S.counts shelf.old) (S.counts shelf.new) }
{
    match call {
        CheckCall::Check { file, main } => file_plan(alloc, file, main, shelf),
        CheckCall::Help => shown_plan(alloc, check_help()),
        CheckCall::Version => shown_plan(alloc, version()),
        CheckCall::Faulty => Fault::Usage.plan(alloc, ""),
    }
}

/// Does what the words `check FILE [--main CLASS]` call for, but for the writing; the first word is the command's name. A file is read by the shelf.
/// At `Err` there is no memory.
pub fn check_plan<S: Shelf>(
    alloc: Global,
    words: &[String],
    shelf: &mut S,
) -> Result<Plan, AllocError>
    ensures plan { IfOk result (λ plan. CheckPlan (map string_bytes words.now) (S.known shelf.old) (S.counts shelf.old) (S.counts shelf.new) plan) }
    ensures known { S.known shelf.new ≡ S.known shelf.old }
    ensures counts { NeverFall (S.counts shelf.old) (S.counts shelf.new) }
{
    match read_check(alloc, words) {
        Ok(call) => call_plan(alloc, call, shelf),
        Err(_) => Err(AllocError),
    }
}
