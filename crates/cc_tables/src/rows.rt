//! The rows of what is named.

ghost use Rattle.std.specs.Prelude.{◌≡◌, ◌<◌, ◌^◌, length, map, IfOk, option_map};
ghost use Rattle.cc_tables.specs.Made.{AreTypesMade, AreProtosMade, AreTextsMade};
ghost use Rattle.cc_tables.specs.Places.{class_row_of, field_row_of, method_row_of, proto_row_of, text_place, type_place};

use crate::needs::{NamedField, NamedMethod};
use crate::places::{proto_place, text_place, type_place};
use cc_list::List;
use cc_meaning::file::{
    ClassRow, ClassRows, FieldRow, FieldRows, Ids, MethodRow, MethodRows, ProtoRow, ProtoRows,
};
use cc_meaning::lists::{Rows, Units};
use cc_meaning_builder::content::ListedClass;
use std::alloc::{AllocError, Global};

/// The rows of texts.
pub fn text_rows(alloc: Global, ids: &Ids, texts: &[Units]) -> Result<Rows, AllocError>
    requires { AreTextsMade ids.now }
    ensures { IfOk result (λ rows. rows ≡ map (text_place ids.now) texts.now) }
{
    let mut rows = List::new(alloc);
    for text in texts {
        rows.push(text_place(ids, text.as_slice()))?;
    }
    Ok(rows)
}

/// The rows of types, by their descriptors.
fn type_rows(alloc: Global, ids: &Ids, names: &[Units]) -> Result<Rows, AllocError>
    requires { AreTypesMade ids.now }
    ensures { IfOk result (λ rows. rows ≡ map (type_place ids.now) names.now) }
{
    let mut rows = List::new(alloc);
    for name in names {
        rows.push(type_place(ids, name.as_slice()))?;
    }
    Ok(rows)
}

/// The row of the prototype of a method.
fn proto_row(alloc: Global, ids: &Ids, method: &NamedMethod) -> Result<ProtoRow, AllocError>
    requires { AreTypesMade ids.now }
    ensures { IfOk result (λ row. row ≡ proto_row_of ids.now method.now) }
{
    Ok(ProtoRow {
        result: type_place(ids, method.result.as_slice()),
        params: type_rows(alloc, ids, method.params.as_slice())?,
    })
}

/// The rows of the prototypes of methods.
pub fn proto_rows(
    alloc: Global,
    ids: &Ids,
    methods: &[NamedMethod],
) -> Result<ProtoRows, AllocError>
    requires { AreTypesMade ids.now }
    ensures { IfOk result (λ rows. rows ≡ map (proto_row_of ids.now) methods.now) }
{
    let mut rows = List::new(alloc);
    for method in methods {
        rows.push(proto_row(alloc, ids, method)?)?;
    }
    Ok(rows)
}

/// The row of a field.
fn field_row(ids: &Ids, field: &NamedField) -> FieldRow
    requires { AreTypesMade ids.now }
    ensures { result ≡ field_row_of ids.now field.now }
{
    FieldRow {
        class: type_place(ids, field.class.as_slice()),
        kind: type_place(ids, field.kind.as_slice()),
        name: text_place(ids, field.name.as_slice()),
    }
}

/// The rows of fields.
pub fn field_rows(alloc: Global, ids: &Ids, fields: &[NamedField]) -> Result<FieldRows, AllocError>
    requires { AreTypesMade ids.now }
    ensures { IfOk result (λ rows. rows ≡ map (field_row_of ids.now) fields.now) }
{
    let mut rows = List::new(alloc);
    for field in fields {
        rows.push(field_row(ids, field))?;
    }
    Ok(rows)
}

/// The row of a method.
fn method_row(alloc: Global, ids: &Ids, method: &NamedMethod) -> Result<MethodRow, AllocError>
    requires { AreProtosMade ids.now }
    ensures { IfOk result (λ row. row ≡ method_row_of ids.now method.now) }
{
    let prototype = proto_row(alloc, ids, method)?;
    Ok(MethodRow {
        class: type_place(ids, method.class.as_slice()),
        proto: proto_place(ids, &prototype),
        name: text_place(ids, method.name.as_slice()),
    })
}

/// The rows of methods.
pub fn method_rows(
    alloc: Global,
    ids: &Ids,
    methods: &[NamedMethod],
) -> Result<MethodRows, AllocError>
    requires { AreProtosMade ids.now }
    ensures { IfOk result (λ rows. rows ≡ map (method_row_of ids.now) methods.now) }
{
    let mut rows = List::new(alloc);
    for method in methods {
        rows.push(method_row(alloc, ids, method)?)?;
    }
    Ok(rows)
}

/// The row of the type of a superclass, where there is one.
fn superclass_row(ids: &Ids, superclass: &Option<Units>) -> Option<u32>
    requires { AreTypesMade ids.now }
    ensures { result ≡ option_map (type_place ids.now) superclass.now }
{
    match superclass {
        Some(name) => Some(type_place(ids, name.as_slice())),
        None => None,
    }
}

/// The row of the definition of a class.
fn class_row(alloc: Global, ids: &Ids, class: &ListedClass) -> Result<ClassRow, AllocError>
    requires { AreTypesMade ids.now }
    ensures { IfOk result (λ row. row ≡ class_row_of ids.now class.now) }
{
    Ok(ClassRow {
        class: type_place(ids, class.name.as_slice()),
        flags: class.flags,
        superclass: superclass_row(ids, &class.superclass),
        interfaces: type_rows(alloc, ids, class.interfaces.as_slice())?,
        members_at: 0,
        values_at: 0,
    })
}

/// The rows of the definitions of classes, in their order.
pub fn class_rows(
    alloc: Global,
    ids: &Ids,
    content: &[ListedClass],
) -> Result<ClassRows, AllocError>
    requires { AreTypesMade ids.now }
    ensures { IfOk result (λ rows. rows ≡ map (class_row_of ids.now) content.now) }
{
    let mut rows = List::new(alloc);
    for class in content {
        rows.push(class_row(alloc, ids, class)?)?;
    }
    Ok(rows)
}
