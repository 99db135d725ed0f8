//! What rows link to.

ghost use Rattle.std.specs.Prelude.{◌≡◌, slice_get, IfSome};
ghost use Rattle.cc_bodies.specs.Linkable.{HasLink};
ghost use Rattle.cc_bodies.specs.Linked.{TypeLinked, MethodLinked};
ghost use Rattle.cc_meaning_program.specs.References.{named_type, named_method};
ghost use Rattle.cc_meaning_program.specs.declared.reference.Reference.TheVariants as reference;

use cc_meaning::instruction::{MethodRef, TypeRef};
use cc_meaning::lists::{FieldIx, TextIx};
use cc_meaning::program::DexType;
use cc_meaning_program::Links;

pub(crate) fn text_number(links: &Links, row: u32) -> TextIx
    requires { HasLink links.now (reference.Text row) }
    ensures { slice_get links.now.texts row ≡ Some result }
{
    *links.texts.at(row as usize)
}

pub(crate) fn field_number(links: &Links, row: u32) -> FieldIx
    requires { HasLink links.now (reference.Field row) }
    ensures { slice_get links.now.fields row ≡ Some (Some result) }
{
    match links.fields.get(row as usize) {
        Some(Some(number)) => *number,
        _ => unreachable!(),
    }
}

pub(crate) fn type_of(links: &Links, row: u32) -> DexType
    requires { HasLink links.now (reference.Type row) }
    ensures { slice_get links.now.types row ≡ Some (Some result) }
{
    match links.types.get(row as usize) {
        Some(Some(known)) => *known,
        _ => unreachable!(),
    }
}

#[tactic(auto, unfolding(cc_meaning_program::specs::References::named_type))]
pub(crate) fn link_type(links: &Links, named: TypeRef) -> TypeRef
    requires { IfSome (named_type named) (HasLink links.now) }
    ensures { TypeLinked links.now named result }
{
    match named {
        TypeRef::Row(row) => TypeRef::Known(type_of(links, row)),
        TypeRef::Known(known) => TypeRef::Known(known),
    }
}

#[tactic(auto, unfolding(cc_meaning_program::specs::References::named_method))]
pub(crate) fn link_method(links: &Links, named: MethodRef) -> MethodRef
    requires { IfSome (named_method named) (HasLink links.now) }
    ensures { MethodLinked links.now named result }
{
    match named {
        MethodRef::Row(row) => match links.methods.get(row as usize) {
            Some(Some(link)) => MethodRef::Known {
                class: link.class,
                method: link.number,
            },
            _ => unreachable!(),
        },
        known => known,
    }
}
