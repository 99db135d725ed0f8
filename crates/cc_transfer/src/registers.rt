//! What registers hold, and which of them can be written.

ghost use Rattle.std.specs.Prelude.{◌≡◌, ◌↔◌, ◌<◌, suc, IsTrue};
ghost use Rattle.cc_meaning.specs.declared.program.RegType.TheVariants as register;
ghost use Rattle.cc_meaning.specs.Kinds.{kind_of};
ghost use Rattle.cc_meaning_typing.specs.Hierarchy.{IsHierarchy};
ghost use Rattle.cc_meaning_typing.specs.Rules.{Holds, HoldsPair, HoldsReference, HoldsFresh, HoldsKind, HoldsDeclared, WritesOne, WritesPair, WritesKind, form_of};
ghost use Rattle.cc_transfer.specs.Bodies.{body_of};

use crate::body::MethodBody;
use cc_meaning::instruction::Kind;
use cc_meaning::program::{Base, DexType, Program, RegType};
use cc_meaning_typing::State;
use cc_types::{covers, register, register_of};

/// The kind of a declared type.
pub(crate) fn kind_of(ty: DexType) -> Kind
    ensures { result ≡ kind_of ty }
{
    if ty.dims > 0 {
        return Kind::Object;
    }
    match ty.base {
        Base::Boolean => Kind::Boolean,
        Base::Byte => Kind::Byte,
        Base::Short => Kind::Short,
        Base::Char => Kind::Char,
        Base::Int => Kind::Plain,
        Base::Long => Kind::Wide,
        Base::Class(_) => Kind::Object,
    }
}

/// The form of a move or a return for values of a kind.
#[tactic(auto, unfolding(cc_meaning_typing::specs::Rules::form_of))]
pub(crate) fn form_of(kind: Kind) -> Kind
    ensures { result ≡ form_of kind }
{
    match kind {
        Kind::Wide => Kind::Wide,
        Kind::Object => Kind::Object,
        _ => Kind::Plain,
    }
}

pub(crate) fn same_kind(a: Kind, b: Kind) -> bool
    ensures { IsTrue result ↔ (a ≡ b) }
{
    match (a, b) {
        (Kind::Plain, Kind::Plain) => true,
        (Kind::Wide, Kind::Wide) => true,
        (Kind::Object, Kind::Object) => true,
        (Kind::Boolean, Kind::Boolean) => true,
        (Kind::Byte, Kind::Byte) => true,
        (Kind::Char, Kind::Char) => true,
        (Kind::Short, Kind::Short) => true,
        _ => false,
    }
}

/// Whether a register is known as `wanted`, or as what this covers.
pub(crate) fn holds(program: &Program, state: &State, at: u16, wanted: RegType) -> bool
    requires { IsHierarchy program.now }
    ensures { IsTrue result ↔ Holds program.now state.now at wanted }
{
    covers(wanted, register(&state.registers, at as usize), program)
}

/// Whether the register behind this one holds the second half of a long.
fn holds_high(program: &Program, state: &State, at: u16) -> bool
    requires { IsHierarchy program.now }
    ensures { IsTrue result ↔ Holds program.now state.now (suc at) register.LongHigh }
{
    let known = register(&state.registers, at as usize + 1);
    covers(RegType::LongHigh, known, program)
}

pub(crate) fn holds_int(body: &MethodBody<'_>, state: &State, at: u16) -> bool
    ensures { IsTrue result ↔ Holds body.now.program.now state.now at register.Int }
{
    holds(body.program, state, at, RegType::Int)
}

pub(crate) fn holds_pair(body: &MethodBody<'_>, state: &State, at: u16) -> bool
    ensures { IsTrue result ↔ HoldsPair body.now.program.now state.now at }
{
    holds(body.program, state, at, RegType::LongLow) && holds_high(body.program, state, at)
}

pub(crate) fn holds_reference(body: &MethodBody<'_>, state: &State, at: u16) -> bool
    ensures { IsTrue result ↔ HoldsReference body.now.program.now state.now at }
{
    let object = DexType {
        dims: 0,
        base: Base::Class(body.landmarks.object),
    };
    holds(body.program, state, at, RegType::Reference(object))
}

pub(crate) fn holds_fresh(state: &State, at: u16) -> bool
    ensures { IsTrue result ↔ HoldsFresh state.now at }
{
    matches!(register(&state.registers, at as usize), RegType::Fresh(_))
}

/// Whether a register holds what a move's or an array access's form of a kind takes.
pub(crate) fn holds_kind(body: &MethodBody<'_>, state: &State, at: u16, kind: Kind) -> bool
    ensures { IsTrue result ↔ HoldsKind body.now.program.now state.now at kind }
{
    match kind {
        Kind::Wide => holds_pair(body, state, at),
        Kind::Object => holds_reference(body, state, at),
        _ => holds_int(body, state, at),
    }
}

/// Whether a register holds a value of a declared type, a long with the next one.
pub(crate) fn holds_declared(body: &MethodBody<'_>, state: &State, at: u16, ty: DexType) -> bool
    ensures { IsTrue result ↔ HoldsDeclared body.now.program.now state.now at ty }
{
    if !holds(body.program, state, at, register_of(ty, body.program)) {
        return false;
    }
    match kind_of(ty) {
        Kind::Wide => holds_high(body.program, state, at),
        _ => true,
    }
}

pub(crate) fn writes_one(body: &MethodBody<'_>, at: u16) -> bool
    ensures { IsTrue result ↔ WritesOne (body_of body.now) at }
{
    at < body.code.registers
}

pub(crate) fn writes_pair(body: &MethodBody<'_>, at: u16) -> bool
    ensures { IsTrue result ↔ WritesPair (body_of body.now) at }
{
    at as usize + 1 < body.code.registers as usize
}

/// Whether the registers that a value of a kind takes can be written.
pub(crate) fn writes_kind(body: &MethodBody<'_>, at: u16, kind: Kind) -> bool
    ensures { IsTrue result ↔ WritesKind (body_of body.now) at kind }
{
    match kind {
        Kind::Wide => writes_pair(body, at),
        _ => writes_one(body, at),
    }
}
