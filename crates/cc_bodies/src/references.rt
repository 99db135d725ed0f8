//! What instructions name of their file.

ghost use Rattle.std.specs.Prelude.{◌≡◌, ◌↔◌, codes, IsTrue, IfOk};
ghost use Rattle.cc_meaning_program.specs.References.{named_type, named_method, reference_of, IsMissing, Floats, reference_name};
ghost use Rattle.cc_bodies.specs.Floats.{AreFloatRows};

use crate::floats::{FloatRows, field_floats, method_floats, type_floats};
use crate::names::{field_text, method_text, type_name};
use cc_meaning::file::Ids;
use cc_meaning::instruction::{Insn, MethodRef, TypeRef};
use cc_meaning::lists::Units;
use cc_meaning_program::Reference;
use std::alloc::{AllocError, Global};

/// `V`, the descriptor of no value.
const VOID: u16 = 86;

#[tactic(auto, unfolding(cc_meaning_program::specs::References::named_type))]
fn named_type(named: TypeRef) -> Option<Reference>
    ensures { result ≡ named_type named }
{
    match named {
        TypeRef::Row(row) => Some(Reference::Type(row)),
        TypeRef::Known(_) => None,
    }
}

#[tactic(auto, unfolding(cc_meaning_program::specs::References::named_method))]
fn named_method(named: MethodRef) -> Option<Reference>
    ensures { result ≡ named_method named }
{
    match named {
        MethodRef::Row(row) => Some(Reference::Method(row)),
        MethodRef::Known { .. } => None,
    }
}

/// The row that an instruction names.
#[tactic(auto, unfolding(cc_meaning_program::specs::References::reference_of))]
pub(crate) fn reference_of(insn: &Insn) -> Option<Reference>
    ensures { result ≡ reference_of insn.now }
{
    match insn {
        Insn::ConstText { text, .. } => Some(Reference::Text(*text)),
        Insn::ConstClass { named, .. } => named_type(*named),
        Insn::CheckCast { named, .. } => named_type(*named),
        Insn::InstanceOf { named, .. } => named_type(*named),
        Insn::NewInstance { named, .. } => named_type(*named),
        Insn::NewArray { named, .. } => named_type(*named),
        Insn::FilledNewArray { named, .. } => named_type(*named),
        Insn::FieldGet { field, .. } => Some(Reference::Field(*field)),
        Insn::FieldPut { field, .. } => Some(Reference::Field(*field)),
        Insn::StaticGet { field, .. } => Some(Reference::Field(*field)),
        Insn::StaticPut { field, .. } => Some(Reference::Field(*field)),
        Insn::Invoke { named, .. } => named_method(*named),
        _ => None,
    }
}

fn is_void(name: &[u16]) -> bool
    ensures { IsTrue result ↔ (name.now ≡ codes "V") }
{
    name.len() == 1 && name[0] == VOID
}

/// Whether a row lies outside its table, or is the type V.
#[tactic(auto, unfolding(cc_meaning_program::specs::References::IsMissing))]
pub(crate) fn is_missing(ids: &Ids, named: Reference) -> bool
    ensures { IsTrue result ↔ IsMissing ids.now named }
{
    match named {
        Reference::Text(row) => ids.texts.len() <= row as usize,
        Reference::Type(row) => ids.types.len() <= row as usize || is_void(type_name(ids, row)),
        Reference::Field(row) => ids.fields.len() <= row as usize,
        Reference::Method(row) => ids.methods.len() <= row as usize,
    }
}

/// Whether a row is of floating point.
pub(crate) fn floats(ids: &Ids, rows: &FloatRows, named: Reference) -> bool
    requires { AreFloatRows ids.now rows.now }
    ensures { IsTrue result ↔ Floats ids.now named }
{
    match named {
        Reference::Text(_) => false,
        Reference::Type(row) => type_floats(rows, row),
        Reference::Field(row) => field_floats(ids, rows, row),
        Reference::Method(row) => method_floats(ids, rows, row),
    }
}

/// A member or type as it is named.
#[tactic(auto, unfolding(cc_meaning_program::specs::References::reference_name))]
pub(crate) fn reference_name(
    alloc: Global,
    ids: &Ids,
    named: Reference,
) -> Result<Units, AllocError>
    ensures { IfOk result (λ name. name ≡ reference_name ids.now named) }
{
    match named {
        Reference::Text(_) => Ok(Units::new(alloc)),
        Reference::Type(row) => Units::from_slice(alloc, type_name(ids, row)),
        Reference::Field(row) => field_text(alloc, ids, row),
        Reference::Method(row) => method_text(alloc, ids, row),
    }
}
