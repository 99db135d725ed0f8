//! Types that instructions name.

ghost use Rattle.std.specs.Prelude.{◌≡◌, ◌↔◌, ◌≤◌, ◌<◌, ◌^◌, drop, length, IsTrue};
ghost use Rattle.cc_meaning.specs.Order.{IsRisingByName};
ghost use Rattle.cc_meaning_typing.specs.Types.{typed, class_type, is_reference};
ghost use Rattle.cc_meaning_typing.specs.Code.{is_array, element_of, brackets, behind_brackets, base_of, type_of_class};
ghost use Rattle.cc_meaning_typing.specs.WellFormed.{IsWellFormed};
ghost use Rattle.cc_meaning_typing.specs.Rules.{NamesReference, NamesArray};

use cc_meaning::instruction::TypeRef;
use cc_meaning::lists::ClassIx;
use cc_meaning::program::{Base, ClassKind, DexType, Program};
use cc_program_names::class_named;

/// `[`, with which the name of an array begins.
const BRACKET: u16 = 91;

/// The type that a class is which is no array.
pub(crate) fn class_type(class: ClassIx) -> DexType
    ensures { result ≡ class_type class }
{
    DexType {
        dims: 0,
        base: Base::Class(class),
    }
}

/// Whether a type is that of a class or of arrays.
#[tactic(auto, unfolding(cc_meaning_typing::specs::Types::is_reference, cc_meaning_typing::specs::Types::is_reference_in, cc_meaning_typing::specs::Types::is_class))]
pub(crate) fn is_reference(ty: DexType) -> bool
    ensures { result ≡ is_reference ty }
{
    ty.dims > 0 || matches!(ty.base, Base::Class(_))
}

#[tactic(auto, unfolding(cc_meaning_typing::specs::Code::is_array, cc_meaning_typing::specs::Code::is_array_of))]
pub(crate) fn is_array(ty: DexType) -> bool
    ensures { result ≡ is_array ty }
{
    ty.dims > 0
}

/// The type of an array's elements.
#[tactic(auto, unfolding(cc_meaning_typing::specs::Code::element_of, cc_meaning_typing::specs::Types::fewer))]
pub(crate) fn element_of(ty: DexType) -> DexType
    ensures { result ≡ element_of ty }
{
    if ty.dims == 0 {
        return ty;
    }
    DexType {
        dims: ty.dims - 1,
        base: ty.base,
    }
}

pub(crate) fn names_reference(named: TypeRef) -> bool
    ensures { IsTrue result ↔ NamesReference named }
{
    match named {
        TypeRef::Row(_) => false,
        TypeRef::Known(ty) => is_reference(ty),
    }
}

pub(crate) fn names_array(named: TypeRef) -> bool
    ensures { IsTrue result ↔ NamesArray named }
{
    match named {
        TypeRef::Row(_) => false,
        TypeRef::Known(ty) => is_array(ty),
    }
}

/// How many `[` a name begins with.
#[tactic(auto, using(crate::proofs::Descriptors::brackets_on, crate::proofs::Descriptors::brackets_off, crate::proofs::Descriptors::no_brackets))]
fn brackets(name: &[u16]) -> usize
    ensures value { result ≡ brackets name.now }
    ensures behind { drop result name.now ≡ behind_brackets name.now }
    ensures within { result ≤ length name.now }
{
    for at in 0..name.len() {
        if name[at] != BRACKET {
            return at;
        }
    }
    name.len()
}

/// The base type that a descriptor without brackets spells.
#[tactic(auto, unfolding(cc_meaning_typing::specs::Code::base_of))]
fn base_of(program: &Program, name: &[u16]) -> Base
    requires few { length program.now.classes ≤ 2 ^ 32 }
    requires rising { IsRisingByName program.now.classes }
    ensures { result ≡ base_of program.now name.now }
{
    match name {
        [90] => Base::Boolean,
        [66] => Base::Byte,
        [83] => Base::Short,
        [67] => Base::Char,
        [73] => Base::Int,
        [74] => Base::Long,
        _ => Base::Class(class_named(program, name).unwrap_or(0)),
    }
}

/// The type that a descriptor of an array spells.
fn array_type(program: &Program, name: &[u16]) -> DexType
    requires few { length program.now.classes ≤ 2 ^ 32 }
    requires rising { IsRisingByName program.now.classes }
    requires dimensions { brackets name.now < 256 }
    ensures { result ≡ typed (brackets name.now) (base_of program.now (behind_brackets name.now)) }
{
    let dims = brackets(name);
    DexType {
        dims: dims as u8,
        base: base_of(program, &name[dims..]),
    }
}

/// The type that a class of the program is, an array among them.
#[tactic(auto, unfolding(cc_meaning_typing::specs::Code::type_of_class, cc_meaning_typing::specs::Code::type_of_found, cc_meaning_typing::specs::Code::type_of_kind))]
pub(crate) fn type_of_class(program: &Program, class: ClassIx) -> DexType
    requires { IsWellFormed program.now }
    ensures { result ≡ type_of_class program.now class }
{
    match program.classes.get(class as usize) {
        Some(found) => match found.kind {
            ClassKind::Array => array_type(program, found.name.as_slice()),
            _ => class_type(class),
        },
        None => class_type(class),
    }
}
