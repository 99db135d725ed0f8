//! Rows in the order of the format, each once.

ghost use Rattle.std.specs.Prelude.{◌≡◌, ◌∷◌, [], map, IfOk};
ghost use Rattle.std.specs.Cmp.Lexicographic.{slice_cmp};
ghost use Rattle.std.specs.Ordering.{nat_cmp};
ghost use Rattle.cc_meaning_builder.specs.Tables.{field_key, method_key, prototype_key};
ghost use Rattle.cc_names.specs.InOrder.{AreInOrder};
ghost use Rattle.cc_tables.specs.Places.{alone};

use cc_list::List;
use cc_meaning::file::{FieldRow, FieldRows, MethodRow, MethodRows, ProtoRow, ProtoRows};
use cc_meaning::lists::Rows;
use cc_names::{Naming, in_order};
use std::alloc::{AllocError, Global};
use std::cmp::Ordering;

/// Compares rows of types by the rows of their texts.
pub fn compare_types(one: u32, other: u32) -> Ordering
    ensures { result ≡ slice_cmp nat_cmp (alone one) (alone other) }
{
    one.cmp(&other)
}

/// Compares prototypes by their results, then by their parameters.
pub fn compare_protos(one: &ProtoRow, other: &ProtoRow) -> Ordering
    ensures { result ≡ slice_cmp nat_cmp (prototype_key one.now) (prototype_key other.now) }
{
    match one.result.cmp(&other.result) {
        Ordering::Equal => one.params.as_slice().cmp(&other.params.as_slice()),
        unequal => unequal,
    }
}

/// Compares three numbers and three others: the first that differ decide.
fn compare_keys(these: [u32; 3], those: [u32; 3]) -> Ordering
    ensures { result ≡ slice_cmp nat_cmp these those }
{
    these.as_slice().cmp(&those.as_slice())
}

/// The rows of types, by the rows of their texts.
#[derive(Clone, Copy)]
struct ByText;

impl Naming for ByText {
    type Item = u32;

    ghost name = { λ _ row. row ∷ [] };

    fn compare(&self, one: u32, other: u32) -> Ordering {
        compare_types(one, other)
    }
}

/// Rows of fields, by their classes, then their names, then their types.
#[derive(Clone, Copy)]
struct ByField;

impl Naming for ByField {
    type Item = FieldRow;

    ghost use Rattle.cc_meaning_builder.specs.Tables.{field_key};

    ghost name = { λ _ field. field_key field };

    fn compare(&self, one: FieldRow, other: FieldRow) -> Ordering {
        compare_keys(
            [one.class, one.name, one.kind],
            [other.class, other.name, other.kind],
        )
    }
}

/// Rows of methods, by their classes, then their names, then their prototypes.
#[derive(Clone, Copy)]
struct ByMethod;

impl Naming for ByMethod {
    type Item = MethodRow;

    ghost use Rattle.cc_meaning_builder.specs.Tables.{method_key};

    ghost name = { λ _ method. method_key method };

    fn compare(&self, one: MethodRow, other: MethodRow) -> Ordering {
        compare_keys(
            [one.class, one.name, one.proto],
            [other.class, other.name, other.proto],
        )
    }
}

/// Rows of prototypes, borrowed from a table: by their results, then by their parameters.
#[derive(Clone, Copy)]
struct ByPrototype<'a> {
    protos: &'a ProtoRows,
}

impl<'a> Naming for ByPrototype<'a> {
    type Item = &'a ProtoRow;

    ghost use Rattle.cc_meaning_builder.specs.Tables.{prototype_key};

    ghost name = { λ _ prototype. prototype_key prototype.now };

    fn compare(&self, one: &'a ProtoRow, other: &'a ProtoRow) -> Ordering {
        compare_protos(one, other)
    }
}

/// Rows of types in order, each once.
/// Source: Dalvik Executable format, section type_id_item.
pub fn type_table(alloc: Global, rows: Rows) -> Result<Rows, AllocError>
    ensures { IfOk result (AreInOrder alone rows) }
{
    in_order(alloc, &ByText, rows)
}

/// Rows of fields in order, each once.
/// Source: Dalvik Executable format, section field_id_item.
pub fn field_table(alloc: Global, rows: FieldRows) -> Result<FieldRows, AllocError>
    ensures { IfOk result (AreInOrder field_key rows) }
{
    in_order(alloc, &ByField, rows)
}

/// Rows of methods in order, each once.
/// Source: Dalvik Executable format, section method_id_item.
pub fn method_table(alloc: Global, rows: MethodRows) -> Result<MethodRows, AllocError>
    ensures { IfOk result (AreInOrder method_key rows) }
{
    in_order(alloc, &ByMethod, rows)
}

/// These rows, borrowed.
fn borrowed(alloc: Global, rows: &ProtoRows) -> Result<List<&ProtoRow>, AllocError>
    ensures { IfOk result (λ all. map (λ row. row.now) all ≡ rows.now) }
{
    let mut all = List::new(alloc);
    for row in rows.as_slice() {
        all.push(row)?;
    }
    Ok(all)
}

/// Copies of these rows.
fn copies(alloc: Global, rows: &[&ProtoRow]) -> Result<ProtoRows, AllocError>
    ensures { IfOk result (λ all. all ≡ map (λ row. row.now) rows.now) }
{
    let mut all = List::new(alloc);
    for row in rows {
        all.push(ProtoRow {
            result: row.result,
            params: row.params.copy()?,
        })?;
    }
    Ok(all)
}

/// Rows of prototypes in order, each once.
/// Source: Dalvik Executable format, section proto_id_item.
pub fn proto_table(alloc: Global, rows: &ProtoRows) -> Result<ProtoRows, AllocError>
    ensures { IfOk result (AreInOrder prototype_key rows.now) }
{
    let given = borrowed(alloc, rows)?;
    let sorted = in_order(alloc, &ByPrototype { protos: rows }, given)?;
    copies(alloc, sorted.as_slice())
}
