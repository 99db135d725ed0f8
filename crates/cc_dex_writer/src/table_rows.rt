//! The tables of a file, row by row.

ghost use Rattle.std.specs.Prelude.{◌≡◌, ◌++◌, OnOk, slice_index};
ghost use Rattle.std.specs.List.{flat_map};
ghost use Rattle.cc_dex_writer.specs.Rows.{numbered_form, text_row_form, proto_row_form, field_row_form, method_row_form, stated_superclass, class_row_form, tables_form};
ghost use Rattle.cc_dex_writer.specs.Whole.{IsWideClass, AreWideClasses};
ghost use Rattle.cc_meaning_builder.specs.Forms.{u32_form};

use crate::numbers::{put_low, put_numbers};
use crate::offsets::Offsets;
use cc_items::put_u32;
use cc_meaning::fault::Memory;
use cc_meaning::file::{ClassRow, FieldRow, Ids, MethodRow, ProtoRow};
use cc_meaning::lists::{Bytes, Units};

/// The number that stands for no row.
/// Source: Dalvik Executable format, section NO_INDEX.
const NO_INDEX: u32 = 0xffff_ffff;

/// What is said for a row, 0 where nothing is.
fn said(rows: &[u32], place: usize) -> u32
    ensures { result ≡ slice_index rows.now place }
{
    rows.get(place).copied().unwrap_or(0)
}

fn put_text(out: &mut Bytes, offsets: &Offsets, place: usize) -> Result<(), Memory>
    ensures { OnOk result (out.new ≡ out.old ++ u32_form (slice_index offsets.now.texts place)) }
{
    put_u32(out, said(offsets.texts.as_slice(), place))
}

fn put_texts(out: &mut Bytes, offsets: &Offsets, texts: &[Units]) -> Result<(), Memory>
    ensures { OnOk result (out.new ≡ out.old ++ numbered_form (text_row_form offsets.now) 0 texts.now) }
{
    for (place, _) in texts.iter().enumerate() {
        put_text(out, offsets, place)?;
    }
    Ok(())
}

fn put_proto(
    out: &mut Bytes,
    offsets: &Offsets,
    place: usize,
    proto: &ProtoRow,
) -> Result<(), Memory>
    ensures { OnOk result (out.new ≡ out.old ++ proto_row_form offsets.now place proto.now) }
{
    let short = said(offsets.shorts.as_slice(), place);
    let params = said(offsets.params.as_slice(), place);
    put_numbers(out, &[short, proto.result, params])
}

fn put_protos(out: &mut Bytes, offsets: &Offsets, protos: &[ProtoRow]) -> Result<(), Memory>
    ensures { OnOk result (out.new ≡ out.old ++ numbered_form (proto_row_form offsets.now) 0 protos.now) }
{
    for (place, proto) in protos.iter().enumerate() {
        put_proto(out, offsets, place, proto)?;
    }
    Ok(())
}

fn put_field(out: &mut Bytes, field: FieldRow) -> Result<(), Memory>
    ensures { OnOk result (out.new ≡ out.old ++ field_row_form field) }
{
    put_low(out, field.class)?;
    put_low(out, field.kind)?;
    put_u32(out, field.name)
}

fn put_fields(out: &mut Bytes, fields: &[FieldRow]) -> Result<(), Memory>
    ensures { OnOk result (out.new ≡ out.old ++ flat_map field_row_form fields.now) }
{
    for field in fields {
        put_field(out, *field)?;
    }
    Ok(())
}

fn put_method(out: &mut Bytes, method: MethodRow) -> Result<(), Memory>
    ensures { OnOk result (out.new ≡ out.old ++ method_row_form method) }
{
    put_low(out, method.class)?;
    put_low(out, method.proto)?;
    put_u32(out, method.name)
}

fn put_methods(out: &mut Bytes, methods: &[MethodRow]) -> Result<(), Memory>
    ensures { OnOk result (out.new ≡ out.old ++ flat_map method_row_form methods.now) }
{
    for method in methods {
        put_method(out, *method)?;
    }
    Ok(())
}

/// The row of a superclass, and `NO_INDEX` for none.
fn stated_superclass(superclass: Option<u32>) -> u32
    ensures { result ≡ stated_superclass superclass }
{
    superclass.unwrap_or(NO_INDEX)
}

/// Puts the definition of a class, which states no source file and no annotations.
fn put_class(
    out: &mut Bytes,
    offsets: &Offsets,
    place: usize,
    class: &ClassRow,
) -> Result<(), Memory>
    ensures added { OnOk result (out.new ≡ out.old ++ class_row_form offsets.now place class.now) }
    ensures wide { IsWideClass class.now }
{
    let superclass = stated_superclass(class.superclass);
    let interfaces = said(offsets.interfaces.as_slice(), place);
    let numbers = [
        class.class,
        class.flags,
        superclass,
        interfaces,
        NO_INDEX,
        0,
        class.members_at,
        class.values_at,
    ];
    put_numbers(out, &numbers)
}

fn put_classes(out: &mut Bytes, offsets: &Offsets, classes: &[ClassRow]) -> Result<(), Memory>
    ensures added { OnOk result (out.new ≡ out.old ++ numbered_form (class_row_form offsets.now) 0 classes.now) }
    ensures wide { OnOk result (AreWideClasses classes.now) }
{
    for (place, class) in classes.iter().enumerate() {
        put_class(out, offsets, place, class)?;
    }
    Ok(())
}

/// Puts the six tables, one behind the other.
pub fn put_tables(out: &mut Bytes, ids: &Ids, offsets: &Offsets) -> Result<(), Memory>
    ensures added { OnOk result (out.new ≡ out.old ++ tables_form ids.now offsets.now) }
    ensures wide { OnOk result (AreWideClasses ids.now.classes) }
{
    put_texts(out, offsets, ids.texts.as_slice())?;
    put_numbers(out, ids.types.as_slice())?;
    put_protos(out, offsets, ids.protos.as_slice())?;
    put_fields(out, ids.fields.as_slice())?;
    put_methods(out, ids.methods.as_slice())?;
    put_classes(out, offsets, ids.classes.as_slice())?;
    Ok(())
}
