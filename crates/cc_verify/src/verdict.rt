//! The one call.

ghost use Rattle.std.specs.Prelude.{◌≡◌, ◌≤◌, ◌<◌, ◌^◌, ◌⊎◌, IfOk, IfErr, MatchOption, length, Some, slice_get};
ghost use Rattle.cc_meaning.specs.declared.fault.VerifyFault.TheVariants as faults;
ghost use Rattle.cc_meaning_typing.specs.Complete.{IsComplete};
ghost use Rattle.cc_meaning_typing.specs.WellFormed.{IsWellFormed};
ghost use Rattle.cc_meaning_typing.specs.WellTyped.{IsSound, WellTyped};
ghost use Rattle.cc_meaning_typing.specs.Faults.{FitsWidth, IsFaultOf, IsFirstFault, IsTooWide};
ghost use Rattle.cc_transfer.specs.Bodies.{body_of};
ghost use Rattle.cc_transfer.specs.Landmarks.{AreLandmarks};
ghost use Rattle.cc_verify.specs.Verdicts.{AreClear, HasFault, HasNoFault, IsClear};

use crate::faults::{bad_target, is_too_wide, unknown_member};
use crate::reach::stays_within;
use crate::tries::first_broken;
use cc_meaning::fault::VerifyFault;
use cc_meaning::lists::MethodIx;
use cc_meaning::program::{Method, MethodKind, Program};
use cc_meaning_typing::{law_find_typings, law_laid_out, law_one_fault, law_one_first_fault};
use cc_transfer::{Landmarks, MethodBody, find_landmarks};
use cc_types::Verified;
use std::alloc::{AllocError, Global};

/// The fault of a method with code, `None` where it is well typed and not too wide.
fn fault_of(
    alloc: Global,
    body: &MethodBody<'_>,
    method: MethodIx,
) -> Result<Option<VerifyFault>, AllocError>
    ensures { IfOk result (λ fault. MatchOption fault (HasNoFault (body_of body.now)) (IsFaultOf (body_of body.now) method)) }
{
    law_find_typings();
    law_laid_out();
    if is_too_wide(body.code) {
        return Ok(Some(VerifyFault::TooWide { method }));
    }
    if let Some(pc) = bad_target(body.code) {
        return Ok(Some(VerifyFault::BadTarget { method, pc }));
    }
    if let Some(pc) = unknown_member(body) {
        return Ok(Some(VerifyFault::UnknownMember { method, pc }));
    }
    if !stays_within(alloc, body.code)? {
        return Ok(Some(VerifyFault::FallsOff { method }));
    }
    match first_broken(alloc, body)? {
        Some(pc) => Ok(Some(VerifyFault::IllTyped {
            method,
            pc: pc as u32,
        })),
        None => Ok(None),
    }
}

/// The fault of a method, `None` where it has none.
fn fault_at(
    alloc: Global,
    program: &Program,
    landmarks: &Landmarks,
    number: usize,
) -> Result<Option<VerifyFault>, AllocError>
    requires well_formed { IsWellFormed program.now }
    requires found { AreLandmarks program.now landmarks.now }
    requires within { number < length program.now.methods }
    requires fits { length program.now.methods ≤ 2 ^ 32 }
    ensures { IfOk result (λ fault. MatchOption fault (IsClear program.now number) (HasFault program.now number)) }
{
    let method = program.methods.at(number);
    match &method.kind {
        MethodKind::Code(code) => {
            let body = MethodBody {
                program,
                method,
                code,
                landmarks,
            };
            let fault = fault_of(alloc, &body, number as u32)?;
            Ok(fault)
        }
        _ => Ok(None),
    }
}

/// The first fault of a program, `None` where it has none.
fn first_fault(alloc: Global, program: &Program) -> Result<Option<VerifyFault>, AllocError>
    requires well_formed { IsWellFormed program.now }
    requires fits { length program.now.methods ≤ 2 ^ 32 }
    ensures { IfOk result (λ fault. MatchOption fault (AreClear program.now (length program.now.methods)) (IsFirstFault program.now)) }
{
    law_one_fault();
    let landmarks = find_landmarks(alloc, program)?;
    for number in 0..program.methods.len() {
        let found = fault_at(alloc, program, &landmarks, number)?;
        if let Some(fault) = found {
            return Ok(Some(fault));
        }
    }
    Ok(None)
}

/// Verifies a program, as a reader makes one: it is well typed, and no method has more than 4,194,304 units times registers. A program that is refused
/// comes back unchanged, with the fault of its first method that has one, of which `VerifyFault` lists the kinds; which comes first in a method is told by `IsFaultOf`.
/// `Memory` says that there is no memory, and nothing else.
/// Source: Dalvik bytecode, and Dalvik executable constraints.
pub fn verify(alloc: Global, program: Program) -> Result<Verified, (Program, VerifyFault)>
    requires complete { IsComplete program }
    // What is accepted is the program, well typed and not too wide.
    ensures same { IfOk result (λ verified. verified ≡ program) }
    ensures well_typed { IfOk result (λ verified. WellTyped program) }
    ensures narrow { IfOk result (λ verified. FitsWidth program) }
    // A program that is refused comes back, with its first fault or for want of memory.
    ensures unchanged { IfErr result (λ refused. refused.0 ≡ program) }
    ensures fault { IfErr result (λ refused. (refused.1 ≡ faults.Memory) ⊎ IsFirstFault program refused.1) }
    // A well typed program that isn't too wide is refused for want of memory alone.
    ensures only { IfErr result (λ refused. WellTyped program → FitsWidth program → refused.1 ≡ faults.Memory) }
{
    law_one_first_fault();
    match first_fault(alloc, &program) {
        Ok(None) => Ok(Verified::new(program)),
        Ok(Some(fault)) => Err((program, fault)),
        Err(_) => Err((program, VerifyFault::Memory)),
    }
}
