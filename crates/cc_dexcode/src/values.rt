//! Static values.

ghost use Rattle.std.specs.Prelude.{◌≡◌, ◌%◌, ◌/◌, ◌≤◌};
ghost use Rattle.std.specs.Str.{bytes_eq};
ghost use Rattle.cc_meaning.specs.BuiltIn.{string_name};
ghost use Rattle.cc_meaning_dex.specs.Values.{kind_of, field_kind, boolean_by, null_by, signed_by, char_by, long_by, text_by, value_by, value_at, element_at, some_values_at, values_at};
ghost use Rattle.cc_dexcode.specs.Finding.{Finds};

use crate::flaw::Flaw;
use crate::little::{number_fits, signed_at, signed_word_at, word_at};
use crate::numbers::number;
use crate::rows::{descriptor, row_behind};
use crate::walk::{ItemReader, read_list};
use cc_meaning::file::{Ids, RawField};
use cc_meaning::program::{StaticValue, StaticValues};
use cc_meaning_dex::{Cursor, ValueKind};
use std::alloc::Global;

/// The descriptor of the class of strings, `Ljava/lang/String;`.
const STRING: [u16; 18] = [
    76, 106, 97, 118, 97, 47, 108, 97, 110, 103, 47, 83, 116, 114, 105, 110, 103, 59,
];

/// The types of values in an array of values.
const BYTE: u8 = 0x00;

const SHORT: u8 = 0x02;

const CHAR: u8 = 0x03;

const INT: u8 = 0x04;

const LONG: u8 = 0x06;

const STRING_ROW: u8 = 0x17;

const NULL: u8 = 0x1e;

const BOOLEAN: u8 = 0x1f;

/// Whether a descriptor is that of the class of strings.
#[tactic(auto, unfolding(cc_meaning::specs::BuiltIn::string_name))]
fn is_string(units: &[u16]) -> bool
    ensures { result ≡ bytes_eq units.now string_name }
{
    units[..] == STRING[..]
}

/// What a static value of a field of this type may be.
#[tactic(auto, unfolding(cc_meaning_dex::specs::Values::kind_of))]
fn kind_of(units: &[u16]) -> Option<ValueKind>
    ensures { result ≡ kind_of units.now }
{
    match units {
        [90, ..] => Some(ValueKind::Boolean),
        [66, ..] => Some(ValueKind::Byte),
        [83, ..] => Some(ValueKind::Short),
        [67, ..] => Some(ValueKind::Char),
        [73, ..] => Some(ValueKind::Int),
        [74, ..] => Some(ValueKind::Long),
        [76 | 91, ..] if is_string(units) => Some(ValueKind::Text),
        [76 | 91, ..] => Some(ValueKind::Reference),
        _ => None,
    }
}

/// What a static value of a field may be, by its row.
fn field_kind(ids: &Ids, row: u32) -> Option<ValueKind>
    ensures { result ≡ field_kind ids.now row }
{
    let field = ids.fields.get(row as usize)?;
    kind_of(descriptor(ids, field.kind)?)
}

/// The first byte of a value, taken apart, and where the value goes on.
#[derive(Clone, Copy)]
struct Head {
    form: u8,
    argument: u8,
    at: usize,
}

/// A boolean, which is its argument.
fn boolean(head: Head) -> Result<(StaticValue, usize), Flaw>
    ensures { Finds (boolean_by head.form head.argument head.at) result }
{
    if head.form == BOOLEAN && head.argument <= 1 {
        Ok((StaticValue::Int(i32::from(head.argument)), head.at))
    } else {
        Err(Flaw::Malformed)
    }
}

/// A number of this form and of at most so many bytes, extended with its sign.
fn signed_int(file: &[u8], form: u8, most: usize, head: Head) -> Result<(StaticValue, usize), Flaw>
    requires { most ≤ 4 }
    ensures { Finds (signed_by file.now form most head.form head.argument head.at) result }
{
    let size = head.argument as usize + 1;
    if head.form != form || !number_fits(file, most, head.at, size) {
        return Err(Flaw::Malformed);
    }
    let value = signed_word_at(file, head.at, size);
    Ok((StaticValue::Int(value), head.at + size))
}

/// A char, extended with zeros.
fn char_value(file: &[u8], head: Head) -> Result<(StaticValue, usize), Flaw>
    ensures { Finds (char_by file.now head.form head.argument head.at) result }
{
    let size = head.argument as usize + 1;
    if head.form != CHAR || !number_fits(file, 2, head.at, size) {
        return Err(Flaw::Malformed);
    }
    let value = word_at(file, head.at, size);
    Ok((StaticValue::Int(value as i32), head.at + size))
}

/// A long, extended with its sign.
fn long_value(file: &[u8], head: Head) -> Result<(StaticValue, usize), Flaw>
    ensures { Finds (long_by file.now head.form head.argument head.at) result }
{
    let size = head.argument as usize + 1;
    if head.form != LONG || !number_fits(file, 8, head.at, size) {
        return Err(Flaw::Malformed);
    }
    let value = signed_at(file, head.at, size);
    Ok((StaticValue::Long(value), head.at + size))
}

/// A string, by its row of the texts, of which there are so many.
fn text_value(file: &[u8], texts: usize, head: Head) -> Result<(StaticValue, usize), Flaw>
    ensures { Finds (text_by file.now texts head.argument head.at) result }
{
    let size = head.argument as usize + 1;
    if !number_fits(file, 4, head.at, size) {
        return Err(Flaw::Malformed);
    }
    let row = word_at(file, head.at, size);
    if row as usize >= texts {
        return Err(Flaw::Malformed);
    }
    Ok((StaticValue::Text(row), head.at + size))
}

/// Null, which has no argument.
fn null_value(head: Head) -> Result<(StaticValue, usize), Flaw>
    ensures { Finds (null_by head.form head.argument head.at) result }
{
    if head.form == NULL && head.argument == 0 {
        Ok((StaticValue::Null, head.at))
    } else {
        Err(Flaw::Malformed)
    }
}

/// A value of a kind behind its first byte.
#[tactic(auto, unfolding(cc_meaning_dex::specs::Values::value_by))]
fn value_by(
    file: &[u8],
    texts: usize,
    kind: ValueKind,
    head: Head,
) -> Result<(StaticValue, usize), Flaw>
    ensures { Finds (value_by file.now texts kind head.form head.argument head.at) result }
{
    match kind {
        ValueKind::Boolean => boolean(head),
        ValueKind::Byte => signed_int(file, BYTE, 1, head),
        ValueKind::Short => signed_int(file, SHORT, 2, head),
        ValueKind::Char => char_value(file, head),
        ValueKind::Int => signed_int(file, INT, 4, head),
        ValueKind::Long => long_value(file, head),
        ValueKind::Text if head.form == STRING_ROW => text_value(file, texts, head),
        ValueKind::Text | ValueKind::Reference => null_value(head),
    }
}

/// The value of a kind at `at`, and the place after it.
#[tactic(auto, unfolding(cc_meaning_dex::specs::Values::value_at))]
fn value_at(
    file: &[u8],
    texts: usize,
    kind: ValueKind,
    at: usize,
) -> Result<(StaticValue, usize), Flaw>
    ensures { Finds (value_at file.now texts kind at) result }
{
    if at >= file.len() {
        return Err(Flaw::Malformed);
    }
    let head = Head {
        form: file[at] % 32,
        argument: file[at] / 32,
        at: at + 1,
    };
    value_by(file, texts, kind, head)
}

/// Reads values of fields in order, as long as they are static.
#[derive(Clone, Copy)]
struct ValueReader<'a> {
    file: &'a [u8],
    ids: &'a Ids,
    fields: &'a [RawField],
}

impl ItemReader for ValueReader<'_> {
    type Item = StaticValue;

    ghost item_at = { λ reader from. element_at reader.file.now reader.ids.now reader.fields.now from };

    #[tactic(auto, unfolding(cc_meaning_dex::specs::Values::element_at))]
    fn read_item(&self, _alloc: Global, from: Cursor) -> Result<(StaticValue, Cursor), Flaw> {
        let Some(field) = self.fields.get(from.row as usize) else {
            return Err(Flaw::Malformed);
        };
        if !field.is_static {
            return Err(Flaw::Malformed);
        }
        let Some(kind) = field_kind(self.ids, field.row) else {
            return Err(Flaw::Malformed);
        };
        let (value, next) = value_at(self.file, self.ids.texts.len(), kind, from.at)?;
        let row = row_behind(1, from.row)?;
        Ok((value, Cursor { at: next, row }))
    }
}

/// The values at `at`, for the first of these fields that are static; none at offset 0.
#[tactic(auto, unfolding(cc_meaning_dex::specs::Values::values_at))]
pub fn read_values(
    alloc: Global,
    file: &[u8],
    ids: &Ids,
    fields: &[RawField],
    at: u32,
) -> Result<StaticValues, Flaw>
    ensures { Finds (values_at file.now ids.now fields.now at) result }
{
    if at == 0 {
        return Ok(StaticValues::new(alloc));
    }
    read_some_values(alloc, &ValueReader { file, ids, fields }, at as usize)
}

/// The values that stand at `at`.
#[tactic(auto, unfolding(cc_meaning_dex::specs::Values::some_values_at))]
fn read_some_values(
    alloc: Global,
    reader: &ValueReader<'_>,
    at: usize,
) -> Result<StaticValues, Flaw>
    ensures { Finds (some_values_at reader.now.file.now reader.now.ids.now reader.now.fields.now at) result }
{
    let (count, place) = number(reader.file, at)?;
    let (values, _) = read_list(alloc, reader, count, place)?;
    Ok(values)
}
