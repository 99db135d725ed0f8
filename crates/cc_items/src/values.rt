//! Static values.

ghost use Rattle.std.specs.Prelude.{◌≡◌, ◌++◌, ◌∷◌, Some, OnOk};
ghost use Rattle.cc_meaning.specs.declared.program.StaticValue.TheVariants as static;
ghost use Rattle.cc_meaning_dex.specs.declared.items.ValueKind.TheVariants as kinds;
ghost use Rattle.cc_meaning_builder.specs.Forms.{each_value_form, signed_form, u32_form, value_form, values_form};
ghost use Rattle.cc_items.specs.Listed.{kind_at};

use crate::kinds::field_kind;
use crate::numbers::put_count;
use cc_meaning::fault::Memory;
use cc_meaning::file::{Ids, RawFields};
use cc_meaning::lists::Bytes;
use cc_meaning::program::{StaticValue, StaticValues};
use cc_meaning_dex::ValueKind;

/// The first bytes of values: a type in the lower five bits, and an argument in the upper three, which of a number is its size in bytes less one.
const BYTE: u8 = 0x00;

const SHORT: u8 = 0x02 + (1 << 5);

const CHAR: u8 = 0x03 + (1 << 5);

const INT: u8 = 0x04 + (3 << 5);

const LONG: u8 = 0x06 + (7 << 5);

const STRING_ROW: u8 = 0x17 + (3 << 5);

const NULL: u8 = 0x1e;

const FALSE: u8 = 0x1f;

const TRUE: u8 = 0x1f + (1 << 5);

/// Puts the array of the values of a class's first fields behind the bytes that are there, each value of the kind of its field. A value that isn't of its
/// field's kind, or has no field, is put as what it is.
/// Source: Dalvik Executable format, sections encoded_array_item and encoded_value encoding.
///
/// # Errors
///
/// `Memory`: there is no memory, or there are 2 ^ 32 values or more.
#[tactic(auto, unfolding(cc_meaning_builder::specs::Forms::values_form))]
pub fn put_values(
    out: &mut Bytes,
    ids: &Ids,
    fields: &RawFields,
    values: &StaticValues,
) -> Result<(), Memory>
    ensures { OnOk result (out.new ≡ out.old ++ values_form ids.now fields.now values.now) }
{
    put_count(out, values.len())?;
    put_each(out, ids, fields, values.as_slice())
}

/// Puts the values one behind the other.
fn put_each(
    out: &mut Bytes,
    ids: &Ids,
    fields: &RawFields,
    values: &[StaticValue],
) -> Result<(), Memory>
    ensures { OnOk result (out.new ≡ out.old ++ each_value_form ids.now fields.now values.now) }
{
    for (place, value) in values.iter().enumerate() {
        put_value(out, kind_at(ids, fields, place), *value)?;
    }
    Ok(())
}

/// What a value of the field at this place may be.
fn kind_at(ids: &Ids, fields: &RawFields, place: usize) -> Option<ValueKind>
    ensures { result ≡ kind_at ids.now fields.now place }
{
    let field = fields.get(place)?;
    field_kind(ids, field.row)
}

/// Puts a value of a field of this kind.
#[tactic(auto, using(crate::proofs::Shapes::long_is, crate::proofs::Shapes::text_is, crate::proofs::Shapes::null_is, crate::proofs::Shapes::lone_is))]
fn put_value(out: &mut Bytes, kind: Option<ValueKind>, value: StaticValue) -> Result<(), Memory>
    ensures { OnOk result (out.new ≡ out.old ++ value_form kind value) }
{
    match value {
        StaticValue::Int(n) => match kind {
            Some(kind) => put_int(out, kind, n),
            None => put_wide(out, n),
        },
        StaticValue::Long(n) => put_long(out, n),
        StaticValue::Text(row) => put_row(out, row),
        StaticValue::Null => put_number(out, NULL, &[]),
    }
}

/// Puts an int in the form of a field of this kind, where that has one for it.
fn put_int(out: &mut Bytes, kind: ValueKind, n: i32) -> Result<(), Memory>
    ensures { OnOk result (out.new ≡ out.old ++ value_form (Some kind) (static.Int n)) }
{
    match kind {
        ValueKind::Boolean => put_boolean(out, n),
        ValueKind::Byte => put_byte(out, n),
        ValueKind::Short => put_short(out, n),
        ValueKind::Char => put_char(out, n),
        _ => put_wide(out, n),
    }
}

/// Puts a boolean, which is its argument.
fn put_boolean(out: &mut Bytes, n: i32) -> Result<(), Memory>
    ensures { OnOk result (out.new ≡ out.old ++ value_form (Some kinds.Boolean) (static.Int n)) }
{
    if n == 0 {
        put_number(out, FALSE, &[])
    } else if n == 1 {
        put_number(out, TRUE, &[])
    } else {
        put_wide(out, n)
    }
}

/// Puts an int of eight bits.
fn put_byte(out: &mut Bytes, n: i32) -> Result<(), Memory>
    ensures { OnOk result (out.new ≡ out.old ++ value_form (Some kinds.Byte) (static.Int n)) }
{
    match i8::try_from(n) {
        Ok(byte) => put_number(out, BYTE, &byte.to_le_bytes()),
        Err(_) => put_wide(out, n),
    }
}

/// Puts an int of 16 bits.
fn put_short(out: &mut Bytes, n: i32) -> Result<(), Memory>
    ensures { OnOk result (out.new ≡ out.old ++ value_form (Some kinds.Short) (static.Int n)) }
{
    match i16::try_from(n) {
        Ok(short) => put_number(out, SHORT, &short.to_le_bytes()),
        Err(_) => put_wide(out, n),
    }
}

/// Puts an int of 16 bits without a sign.
fn put_char(out: &mut Bytes, n: i32) -> Result<(), Memory>
    ensures { OnOk result (out.new ≡ out.old ++ value_form (Some kinds.Char) (static.Int n)) }
{
    match u16::try_from(n) {
        Ok(unit) => put_number(out, CHAR, &unit.to_le_bytes()),
        Err(_) => put_wide(out, n),
    }
}

/// Puts an int of 32 bits.
fn put_wide(out: &mut Bytes, n: i32) -> Result<(), Memory>
    ensures { OnOk result (out.new ≡ out.old ++ 100 ∷ signed_form 4 n) }
{
    put_number(out, INT, &n.to_le_bytes())
}

/// Puts a long.
fn put_long(out: &mut Bytes, n: i64) -> Result<(), Memory>
    ensures { OnOk result (out.new ≡ out.old ++ 230 ∷ signed_form 8 n) }
{
    put_number(out, LONG, &n.to_le_bytes())
}

/// Puts a string by its row of the texts.
#[tactic(auto, using(crate::proofs::Widths::row_bytes))]
fn put_row(out: &mut Bytes, row: u32) -> Result<(), Memory>
    ensures { OnOk result (out.new ≡ out.old ++ 119 ∷ u32_form row) }
{
    put_number(out, STRING_ROW, &row.to_le_bytes())
}

/// Puts the first byte of a value and the bytes of its number.
fn put_number(out: &mut Bytes, first: u8, number: &[u8]) -> Result<(), Memory>
    ensures { OnOk result (out.new ≡ out.old ++ first ∷ number.now) }
{
    out.push(first)?;
    out.extend_from_slice(number)?;
    Ok(())
}
