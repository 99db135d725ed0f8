//! What accesses to fields, and calls, need.

ghost use Rattle.std.specs.Prelude.{◌≡◌, ◌↔◌, ◌⊎◌, ℕ, List, ◌∷◌, IsTrue, MatchOption, Some, slice_get};
ghost use Rattle.cc_meaning.specs.declared.instruction.Insn.TheVariants as insn;
ghost use Rattle.cc_meaning.specs.declared.instruction.Kind.TheVariants as kind;
ghost use Rattle.cc_meaning.specs.declared.program.DexType.{DexType};
ghost use Rattle.cc_meaning.specs.declared.program.Field.{Field};
ghost use Rattle.cc_meaning.specs.Kinds.{kind_of};
ghost use Rattle.cc_meaning_typing.specs.declared.state.State.{State};
ghost use Rattle.cc_meaning_typing.specs.Rules.{Accepts, Arguments, Calls, Follows, HoldsClass, HoldsUnbuilt, Receives, TakesArguments, is_constructor};
ghost use Rattle.cc_meaning_typing.specs.Hierarchy.{IsHierarchy};
ghost use Rattle.cc_transfer.specs.Bodies.{body_of};

use crate::addresses::makes;
use crate::body::MethodBody;
use crate::registers::{holds, holds_declared, kind_of, same_kind, writes_kind};
use crate::types::type_of_class;
use cc_meaning::instruction::{How, Kind, MethodRef};
use cc_meaning::lists::ClassIx;
use cc_meaning::program::{DexType, Field, Method, Program, RegType};
use cc_meaning_typing::State;
use cc_types::{held, register, register_of};

/// Whether a register holds null or a reference that fits a class.
fn holds_class(body: &MethodBody<'_>, state: &State, at: u16, class: ClassIx) -> bool
    ensures { IsTrue result ↔ HoldsClass body.now.program.now state.now at class }
{
    let ty = held(type_of_class(body.program, class), body.program);
    holds(body.program, state, at, RegType::Reference(ty))
}

/// The field of a number, if it is of a form's kind.
fn field_of_kind<'a>(program: &'a Program, field: u32, kind: Kind) -> Option<&'a Field>
    ensures { MatchOption result ((found : Field) → slice_get program.now.fields field ≡ Some found → kind_of found.ty ≡ kind → ⊥)
        (λ found. (slice_get program.now.fields field ≡ Some found.now) × (kind_of found.now.ty ≡ kind)) }
{
    match program.fields.get(field as usize) {
        Some(found) if same_kind(kind_of(found.ty), kind) => Some(found),
        _ => None,
    }
}

pub(crate) fn accepts_field_get(
    body: &MethodBody<'_>,
    state: &State,
    kind: Kind,
    to: u16,
    object: u16,
    field: u32,
) -> bool
    ensures { (at : ℕ) → (IsTrue result ↔ Accepts (body_of body.now) at state.now (insn.FieldGet kind to object field)) }
{
    match field_of_kind(body.program, field, kind) {
        Some(found) => {
            writes_kind(body, to, kind) && holds_class(body, state, object, found.class)
        }
        None => false,
    }
}

pub(crate) fn accepts_field_put(
    body: &MethodBody<'_>,
    state: &State,
    kind: Kind,
    from: u16,
    object: u16,
    field: u32,
) -> bool
    ensures { (at : ℕ) → (IsTrue result ↔ Accepts (body_of body.now) at state.now (insn.FieldPut kind from object field)) }
{
    match field_of_kind(body.program, field, kind) {
        Some(found) => {
            holds_class(body, state, object, found.class)
                && holds_declared(body, state, from, found.ty)
        }
        None => false,
    }
}

pub(crate) fn accepts_static_get(body: &MethodBody<'_>, kind: Kind, to: u16, field: u32) -> bool
    ensures { (at : ℕ) (state : State) → (IsTrue result ↔ Accepts (body_of body.now) at state (insn.StaticGet kind to field)) }
{
    match field_of_kind(body.program, field, kind) {
        Some(_) => writes_kind(body, to, kind),
        None => false,
    }
}

pub(crate) fn accepts_static_put(
    body: &MethodBody<'_>,
    state: &State,
    kind: Kind,
    from: u16,
    field: u32,
) -> bool
    ensures { (at : ℕ) → (IsTrue result ↔ Accepts (body_of body.now) at state.now (insn.StaticPut kind from field)) }
{
    match field_of_kind(body.program, field, kind) {
        Some(found) => holds_declared(body, state, from, found.ty),
        None => false,
    }
}

/// `<init>`, the name of constructors.
const CONSTRUCTOR: [u16; 6] = [60, 105, 110, 105, 116, 62];

#[tactic(auto, unfolding(cc_meaning_typing::specs::Rules::is_constructor))]
fn is_constructor(method: &Method) -> bool
    ensures { result ≡ is_constructor method.now }
{
    method.name.as_slice() == CONSTRUCTOR.as_slice()
}

/// Takes the second register of a long off the front of those behind its first.
fn behind_second<'a>(
    program: &Program,
    state: &State,
    first: u16,
    args: &'a [u16],
) -> Option<&'a [u16]>
    requires { IsHierarchy program.now }
    ensures { MatchOption result ((types : List DexType) → Follows program.now state.now kind.Wide first args.now (Arguments program.now state.now types) → ⊥)
        (λ rest. (types : List DexType) → (Follows program.now state.now kind.Wide first args.now (Arguments program.now state.now types) ↔ Arguments program.now state.now types rest.now)) }
{
    match args {
        [second, rest @ ..]
            if u32::from(*second) == u32::from(first) + 1
                && holds(program, state, *second, RegType::LongHigh) => { Some(rest) }
        _ => None,
    }
}

/// Takes the registers of a parameter off the front of those of a call, or answers `None` where they aren't its own.
fn behind_argument<'a>(
    program: &Program,
    state: &State,
    ty: DexType,
    args: &'a [u16],
) -> Option<&'a [u16]>
    requires { IsHierarchy program.now }
    ensures { MatchOption result ((types : List DexType) → Arguments program.now state.now (ty ∷ types) args.now → ⊥)
        (λ rest. (types : List DexType) → (Arguments program.now state.now (ty ∷ types) args.now ↔ Arguments program.now state.now types rest.now)) }
{
    let [first, rest @ ..] = args else {
        return None;
    };
    if !holds(program, state, *first, register_of(ty, program)) {
        return None;
    }
    match kind_of(ty) {
        Kind::Wide => behind_second(program, state, *first, rest),
        _ => Some(rest),
    }
}

/// Whether registers are exactly those of parameters, in order, and each fits.
fn arguments(program: &Program, state: &State, params: &[DexType], args: &[u16]) -> bool
    requires { IsHierarchy program.now }
    ensures { IsTrue result ↔ Arguments program.now state.now params.now args.now }
{
    let mut rest = args;
    for ty in params {
        match behind_argument(program, state, *ty, rest) {
            Some(behind) => rest = behind,
            None => return false,
        }
    }
    rest.is_empty()
}

/// Whether a register holds an object of exactly this class whose constructor is still to be called.
fn holds_unbuilt(body: &MethodBody<'_>, state: &State, at: u16, class: ClassIx) -> bool
    ensures { IsTrue result ↔ HoldsUnbuilt (body_of body.now) state.now at class }
{
    match register(&state.registers, at as usize) {
        RegType::Fresh(made) => makes(body.code, made, class),
        _ => false,
    }
}

/// Whether a register can be the receiver of a call.
fn receives(
    body: &MethodBody<'_>,
    state: &State,
    how: How,
    class: ClassIx,
    callee: &Method,
    at: u16,
) -> bool
    ensures { IsTrue result ↔ Receives (body_of body.now) state.now how class callee.now at }
{
    match how {
        How::Static => true,
        How::Super => {
            holds_class(body, state, at, class) && holds_class(body, state, at, body.method.class)
        }
        How::Direct => {
            (holds_class(body, state, at, class) && holds_class(body, state, at, callee.class))
                || (is_constructor(callee) && holds_unbuilt(body, state, at, class))
        }
        _ => holds_class(body, state, at, class),
    }
}

fn takes_arguments(
    body: &MethodBody<'_>,
    state: &State,
    how: How,
    class: ClassIx,
    callee: &Method,
    args: &[u16],
) -> bool
    ensures { IsTrue result ↔ TakesArguments (body_of body.now) state.now how class callee.now args.now }
{
    let params = callee.params.as_slice();
    match how {
        How::Static => arguments(body.program, state, params, args),
        _ => match args {
            [receiver, rest @ ..] => {
                receives(body, state, how, class, callee, *receiver)
                    && arguments(body.program, state, params, rest)
            }
            [] => false,
        },
    }
}

/// Whether a call's registers are those of the receiver and the parameters, and each fits.
pub(crate) fn calls(
    body: &MethodBody<'_>,
    state: &State,
    how: How,
    named: MethodRef,
    args: &[u16],
) -> bool
    ensures { IsTrue result ↔ Calls (body_of body.now) state.now how named args.now }
{
    match named {
        MethodRef::Row(_) => false,
        MethodRef::Known { class, method } => match body.program.methods.get(method as usize) {
            Some(callee) => takes_arguments(body, state, how, class, callee, args),
            None => false,
        },
    }
}
