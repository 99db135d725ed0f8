//! The tables of what was added.

ghost use Rattle.std.specs.Prelude.{IfOk};
ghost use Rattle.cc_meaning_builder.specs.Tables.{AreOrdered, AreTables};
ghost use Rattle.cc_meaning_builder.specs.WellNamed.{WellNamed};
ghost use Rattle.cc_tables.specs.Rows.{FewRows};
ghost use Rattle.cc_tables.specs.Made.{AreMade, HasFields, HasMethods, HasProtos, HasTypes};

use crate::names::names_in;
use crate::needs::{Needs, needs_of};
use crate::order::{field_table, method_table, proto_table, type_table};
use crate::rows::{class_rows, field_rows, method_rows, proto_rows, text_rows};
use crate::texts::{descriptors_of, only_texts, text_table};
use cc_meaning::fault::Memory;
use cc_meaning::file::Ids;
use cc_meaning_builder::content::Content;
use std::alloc::{AllocError, Global};

/// The tables of texts and of types; the others have no rows.
fn type_tables(alloc: Global, needs: &Needs) -> Result<Ids, Memory>
    ensures { IfOk result (HasTypes needs.now) }
{
    let mut ids = only_texts(alloc, text_table(alloc, needs)?);
    let descriptors = descriptors_of(alloc, needs)?;
    let rows = text_rows(alloc, &ids, descriptors.as_slice())?;
    ids.types = type_table(alloc, rows)?;
    Ok(ids)
}

/// These tables with that of prototypes.
fn with_protos(alloc: Global, needs: &Needs, mut ids: Ids) -> Result<Ids, AllocError>
    requires { HasTypes needs.now ids }
    ensures { IfOk result (HasProtos needs.now) }
{
    let rows = proto_rows(alloc, &ids, needs.methods.as_slice())?;
    ids.protos = proto_table(alloc, &rows)?;
    Ok(ids)
}

/// These tables with that of fields.
fn with_fields(alloc: Global, needs: &Needs, mut ids: Ids) -> Result<Ids, AllocError>
    requires { HasProtos needs.now ids }
    ensures { IfOk result (HasFields needs.now) }
{
    let rows = field_rows(alloc, &ids, needs.fields.as_slice())?;
    ids.fields = field_table(alloc, rows)?;
    Ok(ids)
}

/// These tables with that of methods.
fn with_methods(alloc: Global, needs: &Needs, mut ids: Ids) -> Result<Ids, AllocError>
    requires { HasFields needs.now ids }
    ensures { IfOk result (HasMethods needs.now) }
{
    let rows = method_rows(alloc, &ids, needs.methods.as_slice())?;
    ids.methods = method_table(alloc, rows)?;
    Ok(ids)
}

/// These tables with that of the definitions of classes.
fn with_classes(
    alloc: Global,
    needs: &Needs,
    content: &Content,
    mut ids: Ids,
) -> Result<Ids, AllocError>
    requires { HasMethods needs.now ids }
    ensures few { IfOk result (λ made. FewRows made) }
    ensures made { IfOk result (AreMade content.now needs.now) }
{
    ids.classes = class_rows(alloc, &ids, content.as_slice())?;
    Ok(ids)
}

/// The tables of what was added: a row for each thing that is named and none beside what these rows need, in the order of the format; classes in the order
/// in which they were added. A class's row states no offsets.
///
/// # Errors
///
/// `Memory`: there is no memory, or there are 2 ^ 32 texts or more that rows need, counted as often as they are needed.
///
/// Source: Dalvik Executable format, sections string_id_item, type_id_item, proto_id_item, field_id_item, method_id_item and class_def_item.
pub fn tables_of(alloc: Global, content: &Content) -> Result<Ids, Memory>
    ensures few { IfOk result (λ ids. FewRows ids) }
    ensures ordered { IfOk result (λ ids. AreOrdered ids) }
    ensures tables { IfOk result (λ ids. WellNamed content.now → AreTables content.now ids) }
{
    let names = names_in(alloc, content.as_slice())?;
    let needs = needs_of(alloc, names.as_slice())?;
    let ids = type_tables(alloc, &needs)?;
    let ids = with_protos(alloc, &needs, ids)?;
    let ids = with_fields(alloc, &needs, ids)?;
    let ids = with_methods(alloc, &needs, ids)?;
    Ok(with_classes(alloc, &needs, content, ids)?)
}
