//! The least address at which a target or a member is wrong.

ghost use Rattle.std.specs.Prelude.{◌≡◌, ◌<◌, ◌*◌, ◌↔◌, true, false, None, Some, IsTrue, All, MatchOption};
ghost use Rattle.cc_meaning.specs.declared.program.Catch.{Catch};
ghost use Rattle.cc_meaning.specs.declared.program.Try.{Try};
ghost use Rattle.cc_meaning_typing.specs.WellFormed.{IsLaidOut};
ghost use Rattle.cc_meaning_typing.specs.WellTyped.{IsTarget, TargetsStand};
ghost use Rattle.cc_meaning_typing.specs.Faults.{IsBadTarget, IsLeast, IsTooWide, IsUnknownMember, MembersAreKnown};
ghost use Rattle.cc_transfer.specs.Bodies.{body_of};
ghost use Rattle.cc_verify.specs.Lowest.{AreTargets, BranchesStand, CatchesStand, IsBadBranch, IsBadCatch, IsBadTry, Lowers};

use crate::table::units;
use cc_meaning::program::{Catch, Code};
use cc_transfer::{MethodBody, has_targets, is_target, knows_member};

/// Whether a method has too many units times registers.
pub fn is_too_wide(code: &Code) -> bool
    requires { IsLaidOut code.now }
    ensures { IsTrue result ↔ IsTooWide code.now }
{
    units(code) as u64 * u64::from(code.registers) > 4_194_304
}

/// The lower one of an address and another, which counts only if what stands there is wrong.
fn lower(best: Option<u32>, is_right: bool, at: u32) -> Option<u32>
    ensures { Lowers best (λ k. (k ≡ at) × (is_right ≡ false)) (is_right ≡ true) result }
{
    if is_right {
        return best;
    }
    match best {
        Some(low) if low < at => Some(low),
        _ => Some(at),
    }
}

/// The least address of a branch that has a wrong target.
fn lowest_branch(code: &Code) -> Option<u32>
    requires { IsLaidOut code.now }
    ensures { Lowers None (IsBadBranch code.now code.now.insns) (BranchesStand code.now code.now.insns) result }
{
    let insns = code.insns.as_slice();
    let mut best = None;
    for placed in insns {
        let is_right = has_targets(code, placed.at, &placed.insn);
        best = lower(best, is_right, placed.at);
    }
    best
}

/// The least of an address and those of a try's handlers at which no instruction stands.
fn lower_catch(code: &Code, catches: &[Catch], best: Option<u32>) -> Option<u32>
    requires { IsLaidOut code.now }
    ensures { Lowers best (IsBadCatch code.now catches.now) (AreTargets code.now catches.now) result }
{
    let mut lowest = best;
    for catch in catches {
        let is_right = is_target(code, Some(u64::from(catch.at)));
        lowest = lower(lowest, is_right, catch.at);
    }
    lowest
}

/// The least of an address and those of all handlers at which no instruction stands.
fn lower_handler(code: &Code, best: Option<u32>) -> Option<u32>
    requires { IsLaidOut code.now }
    ensures { Lowers best (IsBadTry code.now code.now.tries) (CatchesStand code.now code.now.tries) result }
{
    let tries = code.tries.as_slice();
    let mut lowest = best;
    for block in tries {
        lowest = lower_catch(code, block.catches.as_slice(), lowest);
    }
    lowest
}

/// The least address of a branch or a handler that has a wrong target.
pub fn bad_target(code: &Code) -> Option<u32>
    requires { IsLaidOut code.now }
    ensures { MatchOption result (TargetsStand code.now) (IsLeast (IsBadTarget code.now)) }
{
    let branch = lowest_branch(code);
    lower_handler(code, branch)
}

/// The least address of an instruction that names a member which isn't known, or isn't one of those that it is for.
pub fn unknown_member(body: &MethodBody<'_>) -> Option<u32>
    ensures { MatchOption result (MembersAreKnown (body_of body.now)) (IsLeast (IsUnknownMember (body_of body.now))) }
{
    let insns = body.code.insns.as_slice();
    let mut best = None;
    for placed in insns {
        let is_right = knows_member(body, &placed.insn);
        best = lower(best, is_right, placed.at);
    }
    best
}
