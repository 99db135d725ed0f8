//! Where control goes from an instruction.

ghost use Rattle.std.specs.Prelude.{◌≡◌, ◌↔◌, ◌+◌, ◌<◌, ◌^◌, [], ◌∷◌, IsTrue, All, MatchOption};
ghost use Rattle.cc_meaning.specs.declared.program.Catch.{Catch};
ghost use Rattle.cc_meaning_typing.specs.Code.{can_throw, catches_at, divides, handlers, successors};
ghost use Rattle.cc_meaning_typing.specs.Typing.{TakesReference};
ghost use Rattle.cc_meaning_typing.specs.WellFormed.{IsLaidOut};
ghost use Rattle.cc_transfer.specs.Successors.{successors_in};

use crate::addresses::{address, switch_targets};
use crate::types::is_reference;
use cc_meaning::instruction::{Insn, IntOp};
use cc_meaning::program::{Catch, Code, Placed};
use std::marker::Model;

/// Addresses that control goes to from an instruction which doesn't throw, in order: the next one, the target of a jump, the cases of a switch. An address
/// before the first is `None`.
#[derive(Drop)]
pub struct SuccessorAddresses<'a> {
    at: u32,
    next: Option<u32>,
    jump: Option<i32>,
    cases: &'a [i32],
}

impl<'a> Model for SuccessorAddresses<'a> {
    ghost use Rattle.std.specs.Prelude.{ℕ, List, Option};
    ghost use Rattle.cc_transfer.specs.Successors.{successors_in};

    ghost Value = { List (Option ℕ) };

    ghost view = { λ it. successors_in it.at it.next it.jump it.cases.now };
}

impl SuccessorAddresses<'_> {
    /// Takes the first address off. Takes no memory.
    #[tactic(auto, unfolding(crate::specs::Successors::successors_in, crate::specs::Successors::next_in, crate::specs::Successors::jump_in))]
    pub fn take_first(&mut self) -> Option<Option<u64>>
        ensures { MatchOption result ((self.old ≡ []) × (self.new ≡ [])) (λ to. self.old ≡ to ∷ self.new) }
    {
        if let Some(next) = self.next.take() {
            return Some(Some(u64::from(next)));
        }
        if let Some(target) = self.jump.take() {
            return Some(address(self.at, target));
        }
        let [first, rest @ ..] = self.cases else {
            return None;
        };
        let to = address(self.at, *first);
        self.cases = rest;
        Some(to)
    }
}

/// The successors of an instruction that is no switch.
fn plain_successors<'a>(at: u32, next: Option<u32>, jump: Option<i32>) -> SuccessorAddresses<'a>
    ensures { result ≡ successors_in at next jump [] }
{
    SuccessorAddresses {
        at,
        next,
        jump,
        cases: &[],
    }
}

/// Where control goes from an instruction that doesn't throw: on, to its targets, or nowhere. Takes no memory.
/// Source: Dalvik bytecode, instructions goto, if-test, packed-switch, sparse-switch, return and throw.
#[tactic(auto, unfolding(cc_meaning_typing::specs::Code::successors, cc_meaning_typing::specs::Code::successors_of, cc_meaning_typing::specs::Code::case_targets, crate::specs::Successors::successors_in, crate::specs::Successors::next_in, crate::specs::Successors::jump_in))]
pub fn successors<'a>(code: &'a Code, placed: &Placed) -> SuccessorAddresses<'a>
    requires laid_out { IsLaidOut code.now }
    requires fits { placed.now.at + placed.now.units < 2 ^ 32 }
    ensures { result ≡ successors code.now placed.now }
{
    let at = placed.at;
    let next = at + placed.units;
    match &placed.insn {
        Insn::ReturnVoid
        | Insn::Return { .. }
        | Insn::Throw { .. }
        | Insn::PackedPayload { .. }
        | Insn::SparsePayload { .. }
        | Insn::ArrayPayload { .. } => plain_successors(at, None, None),
        Insn::Goto { target } => plain_successors(at, None, Some(*target)),
        Insn::If { target, .. } | Insn::IfZero { target, .. } => {
            plain_successors(at, Some(next), Some(*target))
        }
        Insn::Switch { packed, target, .. } => SuccessorAddresses {
            at,
            next: Some(next),
            jump: None,
            cases: switch_targets(code, at, *packed, *target),
        },
        _ => plain_successors(at, Some(next), None),
    }
}

#[tactic(auto, unfolding(cc_meaning_typing::specs::Code::divides))]
fn divides(op: IntOp) -> bool
    ensures { result ≡ divides op }
{
    matches!(op, IntOp::Div | IntOp::Rem)
}

/// Whether an instruction can throw.
/// Source: Dalvik bytecode, section Summary of bytecode set.
#[tactic(auto, unfolding(cc_meaning_typing::specs::Code::can_throw))]
fn can_throw(insn: &Insn) -> bool
    ensures { result ≡ can_throw insn.now }
{
    match insn {
        Insn::Monitor { .. }
        | Insn::CheckCast { .. }
        | Insn::ArrayLength { .. }
        | Insn::NewInstance { .. }
        | Insn::NewArray { .. }
        | Insn::FilledNewArray { .. }
        | Insn::FillArray { .. }
        | Insn::Throw { .. }
        | Insn::ArrayGet { .. }
        | Insn::ArrayPut { .. }
        | Insn::FieldGet { .. }
        | Insn::FieldPut { .. }
        | Insn::StaticGet { .. }
        | Insn::StaticPut { .. }
        | Insn::Invoke { .. } => true,
        Insn::IntOp { op, .. } | Insn::LongOp { op, .. } | Insn::IntLit { op, .. } => divides(*op),
        _ => false,
    }
}

/// The handlers of the first try that covers an address.
#[tactic(auto, unfolding(cc_meaning_typing::specs::Code::catches_at, cc_meaning_typing::specs::Code::catches_of))]
fn catches_at(code: &Code, at: u32) -> &[Catch]
    ensures { result.now ≡ catches_at code.now at }
{
    match code
        .tries
        .as_slice()
        .iter()
        .find(|covered| covered.start <= at && at < covered.end)
    {
        Some(covered) => covered.catches.as_slice(),
        None => &[],
    }
}

/// Where control goes from an instruction that throws. Takes no memory.
/// Source: Dalvik Executable format, section try_item format.
#[tactic(auto, unfolding(cc_meaning_typing::specs::Code::handlers))]
pub fn handlers<'a>(code: &'a Code, placed: &Placed) -> &'a [Catch]
    ensures { result.now ≡ handlers code.now placed.now }
{
    if can_throw(&placed.insn) {
        catches_at(code, placed.at)
    } else {
        &[]
    }
}

fn takes_reference(catch: &Catch) -> bool
    ensures { IsTrue result ↔ TakesReference catch.now.kind }
{
    match catch.kind {
        None => true,
        Some(ty) => is_reference(ty),
    }
}

/// Whether handlers take references, each a reference type or all that is thrown. Takes no memory.
pub fn take_references(handlers: &[Catch]) -> bool
    ensures { IsTrue result ↔ All (λ (catch : Catch). TakesReference catch.kind) handlers.now }
{
    for catch in handlers {
        if !takes_reference(catch) {
            return false;
        }
    }
    true
}
