//! What stands at an address, and where control goes from there.

ghost use Rattle.std.specs.Prelude.{◌≡◌, ◌↔◌, ℕ, Some, IsTrue, All, map};
ghost use Rattle.std.specs.Option.{option_copied};
ghost use Rattle.cc_meaning.specs.declared.instruction.TypeRef.TheVariants as type;
ghost use Rattle.cc_meaning_typing.specs.Code.{address, placed_at, insn_at, is_payload, type_made_at, targets_in};
ghost use Rattle.cc_meaning_typing.specs.Types.{class_type};
ghost use Rattle.cc_meaning_typing.specs.WellFormed.{IsLaidOut};
ghost use Rattle.cc_transfer.specs.Laws.{Places, place_of};
ghost use Rattle.cc_meaning_typing.specs.WellTyped.{IsTarget, IsSwitchPayload, HasTargets};

use crate::types::class_type;
use cc_meaning::instruction::{Insn, TypeRef};
use cc_meaning::lists::ClassIx;
use cc_meaning::program::{Code, Placed};
use cc_types::same_type;

/// The address so many units from another, `None` before the first. Takes no memory.
/// Source: Dalvik bytecode, instructions goto and if-test.
#[tactic(auto, unfolding(cc_meaning_typing::specs::Code::address, cc_meaning_typing::specs::Code::address_of))]
pub fn address(at: u32, offset: i32) -> Option<u64>
    ensures { result ≡ address at offset }
{
    let to = i64::from(at) + i64::from(offset);
    if to < 0 { None } else { Some(to as u64) }
}

/// In code that is laid out each instruction has its own place and its own address.
#[tactic(auto, using(crate::proofs::Places::places_hold))]
pub fn law_places()
    ensures { Places }
{}

/// The place of the instruction at an address among those of a method, by binary search. Takes no memory.
pub fn place_at(code: &Code, at: u64) -> Option<usize>
    requires { IsLaidOut code.now }
    ensures { result ≡ place_of code.now at }
{
    match code
        .insns
        .as_slice()
        .binary_search_by(|placed| u64::from(placed.at).cmp(&at))
    {
        Ok(place) => Some(place),
        Err(_) => None,
    }
}

/// The instruction at an address, with its address and length. Takes no memory.
pub fn placed_at(code: &Code, at: u64) -> Option<&Placed>
    requires { IsLaidOut code.now }
    ensures { option_copied result ≡ placed_at code.now at }
{
    match place_at(code, at) {
        Some(place) => code.insns.get(place),
        None => None,
    }
}

/// The instruction at an address.
#[tactic(auto, unfolding(cc_meaning_typing::specs::Code::insn_at, cc_meaning_typing::specs::Code::insn_of))]
fn insn_at(code: &Code, at: Option<u64>) -> Option<&Insn>
    requires { IsLaidOut code.now }
    ensures { option_copied result ≡ insn_at code.now at }
{
    match placed_at(code, at?) {
        Some(placed) => Some(&placed.insn),
        None => None,
    }
}

/// The instruction so many units from an address.
pub(crate) fn insn_from(code: &Code, at: u32, offset: i32) -> Option<&Insn>
    requires { IsLaidOut code.now }
    ensures { option_copied result ≡ insn_at code.now (address at offset) }
{
    insn_at(code, address(at, offset))
}

/// Whether the instruction at an address makes an object of this class.
#[tactic(auto, unfolding(cc_meaning_typing::specs::Code::type_made_at, cc_meaning_typing::specs::Code::type_made_by))]
pub(crate) fn makes(code: &Code, at: u32, class: ClassIx) -> bool
    requires { IsLaidOut code.now }
    ensures { IsTrue result ↔ (type_made_at code.now at ≡ Some (type.Known (class_type class))) }
{
    match insn_at(code, Some(u64::from(at))) {
        Some(
            Insn::NewInstance {
                named: TypeRef::Known(ty),
                ..
            },
        ) => same_type(*ty, class_type(class)),
        _ => false,
    }
}

/// Whether an instruction that is no payload stands at an address. Takes no memory.
pub fn is_target(code: &Code, at: Option<u64>) -> bool
    requires { IsLaidOut code.now }
    ensures { IsTrue result ↔ IsTarget code.now at }
{
    match insn_at(code, at) {
        Some(insn) => !is_payload(insn),
        None => false,
    }
}

#[tactic(auto, unfolding(cc_meaning_typing::specs::Code::is_payload))]
fn is_payload(insn: &Insn) -> bool
    ensures { result ≡ is_payload insn.now }
{
    matches!(
        insn,
        Insn::PackedPayload { .. } | Insn::SparsePayload { .. } | Insn::ArrayPayload { .. }
    )
}

/// The targets in the payload of a switch, none where it is of another kind.
#[tactic(auto, unfolding(cc_meaning_typing::specs::Code::targets_in))]
pub(crate) fn switch_targets(code: &Code, at: u32, packed: bool, target: i32) -> &[i32]
    requires { IsLaidOut code.now }
    ensures { result.now ≡ targets_in packed (insn_at code.now (address at target)) }
{
    match insn_from(code, at, target) {
        Some(Insn::PackedPayload { targets, .. }) if packed => targets.as_slice(),
        Some(Insn::SparsePayload { targets, .. }) if !packed => targets.as_slice(),
        _ => &[],
    }
}

/// Whether the payload of a switch stands where it has to, and is of its kind.
fn has_payload(code: &Code, at: u32, packed: bool, target: i32) -> bool
    requires { IsLaidOut code.now }
    ensures { IsTrue result ↔ IsSwitchPayload packed (insn_at code.now (address at target)) }
{
    match insn_from(code, at, target) {
        Some(Insn::PackedPayload { .. }) => packed,
        Some(Insn::SparsePayload { .. }) => !packed,
        _ => false,
    }
}

/// Whether instructions that are no payloads stand at all these places.
#[tactic(auto, using(crate::proofs::Targets::one_of_all))]
fn are_targets(code: &Code, at: u32, targets: &[i32]) -> bool
    requires { IsLaidOut code.now }
    ensures { IsTrue result ↔ All (IsTarget code.now) (map (address at) targets.now) }
{
    for target in targets {
        if !is_target(code, address(at, *target)) {
            return false;
        }
    }
    true
}

/// Whether all targets of an instruction are instructions, or payloads of the right kind. Takes no memory.
/// Source: Dalvik bytecode, instructions goto, if-test, packed-switch, sparse-switch and fill-array-data.
#[tactic(auto, unfolding(cc_meaning_typing::specs::Code::case_targets))]
pub fn has_targets(code: &Code, at: u32, insn: &Insn) -> bool
    requires { IsLaidOut code.now }
    ensures { IsTrue result ↔ HasTargets code.now at insn.now }
{
    match insn {
        Insn::Goto { target } | Insn::If { target, .. } | Insn::IfZero { target, .. } => {
            is_target(code, address(at, *target))
        }
        Insn::Switch { packed, target, .. } => {
            has_payload(code, at, *packed, *target)
                && are_targets(code, at, switch_targets(code, at, *packed, *target))
        }
        Insn::FillArray { target, .. } => {
            matches!(
                insn_from(code, at, *target),
                Some(Insn::ArrayPayload { .. })
            )
        }
        _ => true,
    }
}
