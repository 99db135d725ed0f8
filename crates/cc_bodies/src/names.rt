//! The names that rows of a file give, as units of UTF-16. What a row that isn't there would give is empty.

ghost use Rattle.std.specs.Prelude.{◌≡◌, ◌++◌, codes, slice_get, Some, IfOk, OnOk};
ghost use Rattle.std.specs.List.{flat_map};
ghost use Rattle.cc_meaning_program.specs.Named.{text_of, type_name, field_within, class_of_field, field_text, prototype_of, method_within, class_of_method, method_text};

use cc_meaning::file::{FieldRow, Ids, MethodRow};
use cc_meaning::lists::Units;
use std::alloc::{AllocError, Global};

/// The text of a row of texts.
#[tactic(auto, unfolding(cc_meaning_program::specs::Named::text_of))]
pub(crate) fn text_of(ids: &Ids, row: u32) -> &[u16]
    ensures { result.now ≡ text_of ids.now row }
{
    match ids.texts.get(row as usize) {
        Some(text) => text.as_slice(),
        None => &[],
    }
}

/// The descriptor of a row of types.
#[tactic(auto, unfolding(cc_meaning_program::specs::Named::type_name, cc_meaning_program::specs::Named::text_of))]
pub(crate) fn type_name(ids: &Ids, row: u32) -> &[u16]
    ensures { result.now ≡ type_name ids.now row }
{
    match ids.types.get(row as usize) {
        Some(text) => text_of(ids, *text),
        None => &[],
    }
}

fn add_ascii(name: &mut Units, text: &[u8]) -> Result<(), AllocError>
    ensures { OnOk result (name.new ≡ name.old ++ text.now) }
{
    for byte in text {
        name.push(u16::from(*byte))?;
    }
    Ok(())
}

fn add_types(name: &mut Units, ids: &Ids, types: &[u32]) -> Result<(), AllocError>
    ensures { OnOk result (name.new ≡ name.old ++ flat_map (type_name ids.now) types.now) }
{
    for row in types {
        name.extend_from_slice(type_name(ids, *row))?;
    }
    Ok(())
}

#[tactic(auto, unfolding(cc_meaning_program::specs::Named::field_within, cc_meaning_program::specs::Named::class_of_field))]
fn add_field(name: &mut Units, ids: &Ids, field: &FieldRow) -> Result<(), AllocError>
    ensures { OnOk result (name.new ≡ name.old ++ (class_of_field ids.now (Some field.now) ++ codes "->" ++ field_within ids.now (Some field.now))) }
{
    name.extend_from_slice(type_name(ids, field.class))?;
    add_ascii(name, b"->")?;
    name.extend_from_slice(text_of(ids, field.name))?;
    add_ascii(name, b":")?;
    name.extend_from_slice(type_name(ids, field.kind))
}

/// The whole name that a row of fields gives, as `Lc;->size:I`.
#[tactic(auto, unfolding(cc_meaning_program::specs::Named::field_text, cc_meaning_program::specs::Named::field_member, cc_meaning_program::specs::Named::field_within, cc_meaning_program::specs::Named::class_of_field))]
pub fn field_text(alloc: Global, ids: &Ids, row: u32) -> Result<Units, AllocError>
    ensures { IfOk result (λ name. name ≡ field_text ids.now row) }
{
    let mut name = Units::new(alloc);
    match ids.fields.get(row as usize) {
        Some(field) => add_field(&mut name, ids, field)?,
        None => add_ascii(&mut name, b"->")?,
    }
    Ok(name)
}

#[tactic(auto, unfolding(cc_meaning_program::specs::Named::prototype_of))]
fn add_prototype(name: &mut Units, ids: &Ids, row: u32) -> Result<(), AllocError>
    ensures { OnOk result (name.new ≡ name.old ++ prototype_of ids.now (slice_get ids.now.protos row)) }
{
    let Some(prototype) = ids.protos.get(row as usize) else {
        return Ok(());
    };
    add_ascii(name, b"(")?;
    add_types(name, ids, prototype.params.as_slice())?;
    add_ascii(name, b")")?;
    name.extend_from_slice(type_name(ids, prototype.result))
}

#[tactic(auto, unfolding(cc_meaning_program::specs::Named::method_within, cc_meaning_program::specs::Named::class_of_method))]
fn add_method(name: &mut Units, ids: &Ids, method: &MethodRow) -> Result<(), AllocError>
    ensures { OnOk result (name.new ≡ name.old ++ (class_of_method ids.now (Some method.now) ++ codes "->" ++ method_within ids.now (Some method.now))) }
{
    name.extend_from_slice(type_name(ids, method.class))?;
    add_ascii(name, b"->")?;
    name.extend_from_slice(text_of(ids, method.name))?;
    add_prototype(name, ids, method.proto)
}

/// The whole name that a row of methods gives, as `Lc;->add(II)I`.
#[tactic(auto, unfolding(cc_meaning_program::specs::Named::method_text, cc_meaning_program::specs::Named::method_member, cc_meaning_program::specs::Named::method_within, cc_meaning_program::specs::Named::class_of_method))]
pub fn method_text(alloc: Global, ids: &Ids, row: u32) -> Result<Units, AllocError>
    ensures { IfOk result (λ name. name ≡ method_text ids.now row) }
{
    let mut name = Units::new(alloc);
    match ids.methods.get(row as usize) {
        Some(method) => add_method(&mut name, ids, method)?,
        None => add_ascii(&mut name, b"->")?,
    }
    Ok(name)
}
