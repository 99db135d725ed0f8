//! What instructions on arrays need.

ghost use Rattle.std.specs.Prelude.{◌≡◌, ◌↔◌, ℕ, IsTrue, Some};
ghost use Rattle.cc_meaning.specs.Kinds.{kind_of};
ghost use Rattle.cc_meaning_typing.specs.Hierarchy.{IsHierarchy};
ghost use Rattle.cc_meaning.specs.declared.instruction.Insn.TheVariants as insn;
ghost use Rattle.cc_meaning_typing.specs.Rules.{Accepts, AllHold, FillsNew, HoldsArray, number_width};
ghost use Rattle.cc_transfer.specs.Bodies.{body_of};

use crate::body::MethodBody;
use crate::registers::{holds, holds_int, holds_kind, kind_of, same_kind, writes_kind};
use crate::types::{element_of, is_array};
use cc_meaning::instruction::{Kind, TypeRef};
use cc_meaning::program::{Program, RegType};
use cc_meaning_typing::State;
use cc_types::{register, register_of};

/// Whether a register holds null or an array.
pub(crate) fn holds_array(state: &State, array: u16) -> bool
    ensures { IsTrue result ↔ HoldsArray state.now array (λ _. Unit {0}) }
{
    match register(&state.registers, array as usize) {
        RegType::Zero => true,
        RegType::Reference(ty) => is_array(ty),
        _ => false,
    }
}

/// Whether a register holds null or an array of elements of a kind.
pub(crate) fn holds_array_of(state: &State, array: u16, kind: Kind) -> bool
    ensures { IsTrue result ↔ HoldsArray state.now array (λ ty. kind_of ty ≡ kind) }
{
    match register(&state.registers, array as usize) {
        RegType::Zero => true,
        RegType::Reference(ty) => is_array(ty) && same_kind(kind_of(element_of(ty)), kind),
        _ => false,
    }
}

/// The bytes of an element that is a number.
#[tactic(auto, unfolding(cc_meaning_typing::specs::Rules::number_width))]
fn number_width(kind: Kind) -> Option<u16>
    ensures { result ≡ number_width kind }
{
    match kind {
        Kind::Boolean | Kind::Byte => Some(1),
        Kind::Short | Kind::Char => Some(2),
        Kind::Plain => Some(4),
        Kind::Wide => Some(8),
        Kind::Object => None,
    }
}

/// Whether numbers of a kind take so many bytes.
fn has_width(kind: Kind, width: u16) -> bool
    ensures { IsTrue result ↔ (number_width kind ≡ Some width) }
{
    match number_width(kind) {
        Some(bytes) => bytes == width,
        None => false,
    }
}

/// Whether a register holds null or an array of numbers of so many bytes.
pub(crate) fn holds_numbers(state: &State, array: u16, width: u16) -> bool
    ensures { IsTrue result ↔ HoldsArray state.now array (λ ty. number_width (kind_of ty) ≡ Some width) }
{
    match register(&state.registers, array as usize) {
        RegType::Zero => true,
        RegType::Reference(ty) => is_array(ty) && has_width(kind_of(element_of(ty)), width),
        _ => false,
    }
}

pub(crate) fn accepts_array_get(
    body: &MethodBody<'_>,
    state: &State,
    kind: Kind,
    to: u16,
    array: u16,
    index: u16,
) -> bool
    ensures { (at : ℕ) → (IsTrue result ↔ Accepts (body_of body.now) at state.now (insn.ArrayGet kind to array index)) }
{
    writes_kind(body, to, kind)
        && holds_int(body, state, index)
        && holds_array_of(state, array, kind)
}

pub(crate) fn accepts_array_put(
    body: &MethodBody<'_>,
    state: &State,
    kind: Kind,
    from: u16,
    array: u16,
    index: u16,
) -> bool
    ensures { (at : ℕ) → (IsTrue result ↔ Accepts (body_of body.now) at state.now (insn.ArrayPut kind from array index)) }
{
    holds_int(body, state, index)
        && holds_array_of(state, array, kind)
        && holds_kind(body, state, from, kind)
}

/// Whether all these registers are known as `wanted`, or as what this covers.
fn all_hold(program: &Program, state: &State, args: &[u16], wanted: RegType) -> bool
    requires { IsHierarchy program.now }
    ensures { IsTrue result ↔ AllHold program.now state.now args.now wanted }
{
    for arg in args {
        if !holds(program, state, *arg, wanted) {
            return false;
        }
    }
    true
}

/// Whether registers can be the elements of a new array of a type.
pub(crate) fn fills_new(program: &Program, state: &State, named: TypeRef, args: &[u16]) -> bool
    requires { IsHierarchy program.now }
    ensures { IsTrue result ↔ FillsNew program.now state.now named args.now }
{
    match named {
        TypeRef::Row(_) => false,
        TypeRef::Known(ty) => {
            let element = element_of(ty);
            is_array(ty)
                && !matches!(kind_of(element), Kind::Wide)
                && all_hold(program, state, args, register_of(element, program))
        }
    }
}
