//! Which types and prototypes are of floating point. Each row is judged once, since names and lists of parameters may be long.

ghost use Rattle.std.specs.Prelude.{◌≡◌, ◌↔◌, false, slice_get, unwrap_or, IsTrue, IfOk};
ghost use Rattle.std.specs.List.{list_any};
ghost use Rattle.cc_meaning.specs.declared.file.Ids.{Ids};
ghost use Rattle.cc_meaning_program.specs.Named.{type_name};
ghost use Rattle.cc_meaning_program.specs.ClassNames.{base_name};
ghost use Rattle.cc_meaning_program.specs.References.{IsFloating, FieldFloats, MethodFloats};
ghost use Rattle.cc_bodies.specs.Floats.{PrototypeFloats, ProtoFloats, FlagsSay, AreFloatRows};

use crate::names::text_of;
use cc_list::List;
use cc_meaning::file::{Ids, ProtoRow};
use std::alloc::{AllocError, Global};

/// `[`, which begins an array's descriptor.
const ARRAY: u16 = 91;

/// `F`, the descriptor of a float.
const FLOAT: u16 = 70;

/// `D`, the descriptor of a double.
const DOUBLE: u16 = 68;

/// For each row of types and of prototypes, whether it is of floating point.
#[derive(Drop)]
pub(crate) struct FloatRows {
    pub types: List<bool>,
    pub protos: List<bool>,
}

/// What stands behind the `[` of a descriptor.
fn base_name(name: &[u16]) -> &[u16]
    ensures { result.now ≡ base_name name.now }
{
    let mut base = name;
    while !base.is_empty() && base[0] == ARRAY {
        base = base.split_at(1).1;
    }
    base
}

/// Whether a descriptor is F or D, or an array's of these.
fn is_floating(name: &[u16]) -> bool
    ensures { IsTrue result ↔ IsFloating name.now }
{
    let base = base_name(name);
    base.len() == 1 && (base[0] == FLOAT || base[0] == DOUBLE)
}

/// Whether the flag of a row stands. A row that isn't there has none.
fn is_set(flags: &[bool], row: u32) -> bool
    ensures { result ≡ unwrap_or (slice_get flags.now row) false }
{
    match flags.get(row as usize) {
        Some(flag) => *flag,
        None => false,
    }
}

/// Whether the flag of one of these rows stands.
fn any_is_set(flags: &[bool], rows: &[u32]) -> bool
    ensures { result ≡ list_any (λ row. unwrap_or (slice_get flags.now row) false) rows.now }
{
    rows.iter().any(|row| is_set(flags, *row))
}

fn type_flags(alloc: Global, ids: &Ids) -> Result<List<bool>, AllocError>
    ensures { IfOk result (λ flags. FlagsSay (λ row. IsFloating (type_name ids.now row)) flags) }
{
    let mut flags = List::new(alloc);
    for text in ids.types.as_slice() {
        flags.push(is_floating(text_of(ids, *text)))?;
    }
    Ok(flags)
}

fn prototype_floats(types: &[bool], prototype: &ProtoRow) -> bool
    ensures { (ids : Ids) → FlagsSay (λ row. IsFloating (type_name ids row)) types.now → IsTrue result ↔ PrototypeFloats ids prototype.now }
{
    is_set(types, prototype.result) || any_is_set(types, prototype.params.as_slice())
}

fn proto_flags(alloc: Global, ids: &Ids, types: &[bool]) -> Result<List<bool>, AllocError>
    requires { FlagsSay (λ row. IsFloating (type_name ids.now row)) types.now }
    ensures { IfOk result (λ flags. FlagsSay (ProtoFloats ids.now) flags) }
{
    let mut flags = List::new(alloc);
    for prototype in ids.protos.as_slice() {
        flags.push(prototype_floats(types, prototype))?;
    }
    Ok(flags)
}

/// Judges each row of a file's types and prototypes.
pub(crate) fn float_rows(alloc: Global, ids: &Ids) -> Result<FloatRows, AllocError>
    ensures { IfOk result (AreFloatRows ids.now) }
{
    let types = type_flags(alloc, ids)?;
    let protos = proto_flags(alloc, ids, types.as_slice())?;
    Ok(FloatRows { types, protos })
}

/// Whether the descriptor of a row of types is of floating point.
pub(crate) fn type_floats(rows: &FloatRows, row: u32) -> bool
    ensures { (ids : Ids) → AreFloatRows ids rows.now → IsTrue result ↔ IsFloating (type_name ids row) }
{
    is_set(rows.types.as_slice(), row)
}

/// Whether the class or the type of a row of fields is of floating point.
pub(crate) fn field_floats(ids: &Ids, rows: &FloatRows, row: u32) -> bool
    requires { AreFloatRows ids.now rows.now }
    ensures { IsTrue result ↔ FieldFloats ids.now row }
{
    match ids.fields.get(row as usize) {
        Some(field) => type_floats(rows, field.class) || type_floats(rows, field.kind),
        None => false,
    }
}

/// Whether the class, a parameter or the result of a row of methods is of floating point.
pub(crate) fn method_floats(ids: &Ids, rows: &FloatRows, row: u32) -> bool
    requires { AreFloatRows ids.now rows.now }
    ensures { IsTrue result ↔ MethodFloats ids.now row }
{
    match ids.methods.get(row as usize) {
        Some(method) => {
            type_floats(rows, method.class) || is_set(rows.protos.as_slice(), method.proto)
        }
        None => false,
    }
}
