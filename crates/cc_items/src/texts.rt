//! Texts and lists of types.

ghost use Rattle.std.specs.Prelude.{◌≡◌, ◌++◌, OnOk};
ghost use Rattle.std.specs.List.{flat_map};
ghost use Rattle.cc_meaning_dex.specs.Mutf8.{unit_form, mutf8_bytes};
ghost use Rattle.cc_meaning_builder.specs.Forms.{text_form, types_form, u16_form, u32_form};

use crate::numbers::{put_count, put_long_count, put_low};
use cc_meaning::fault::Memory;
use cc_meaning::lists::Bytes;

/// Puts a text's item behind the bytes that are there: how many units of UTF-16 it has, their forms in MUTF-8, and a zero byte.
/// Source: Dalvik Executable format, section string_data_item.
///
/// # Errors
///
/// `Memory`: there is no memory, or the text has 2 ^ 32 units or more.
pub fn put_text(out: &mut Bytes, units: &[u16]) -> Result<(), Memory>
    ensures { OnOk result (out.new ≡ out.old ++ text_form units.now) }
{
    put_count(out, units.len())?;
    put_forms(out, units)?;
    out.push(0)?;
    Ok(())
}

/// Puts the forms of units in MUTF-8.
fn put_forms(out: &mut Bytes, units: &[u16]) -> Result<(), Memory>
    ensures { OnOk result (out.new ≡ out.old ++ mutf8_bytes units.now) }
{
    for unit in units {
        put_form(out, *unit)?;
    }
    Ok(())
}

/// Puts the form of a unit in MUTF-8: of 0001 to 007f one byte, of 0000 and 0080 to 07ff two, of all others three.
/// Source: Dalvik Executable format, section MUTF-8 (Modified UTF-8) Encoding.
#[tactic(auto, unfolding(cc_meaning_dex::specs::Mutf8::unit_form))]
fn put_form(out: &mut Bytes, unit: u16) -> Result<(), Memory>
    ensures { OnOk result (out.new ≡ out.old ++ unit_form unit) }
{
    let last = 128 + (unit % 64) as u8;
    if unit != 0 && unit < 128 {
        out.push(unit as u8)?;
    } else if unit < 2048 {
        out.extend_from_slice(&[192 + (unit / 64) as u8, last])?;
    } else {
        let middle = 128 + (unit / 64 % 64) as u8;
        out.extend_from_slice(&[224 + (unit / 4096) as u8, middle, last])?;
    }
    Ok(())
}

/// Puts a list of types behind the bytes that are there, by their rows, of which it has the low 16 bits.
/// Source: Dalvik Executable format, section type_list.
///
/// # Errors
///
/// `Memory`: there is no memory, or there are 2 ^ 32 rows or more.
pub fn put_types(out: &mut Bytes, rows: &[u32]) -> Result<(), Memory>
    ensures { OnOk result (out.new ≡ out.old ++ types_form rows.now) }
{
    put_long_count(out, rows.len())?;
    put_rows(out, rows)
}

/// Puts the low 16 bits of rows.
fn put_rows(out: &mut Bytes, rows: &[u32]) -> Result<(), Memory>
    ensures { OnOk result (out.new ≡ out.old ++ flat_map u16_form rows.now) }
{
    for row in rows {
        put_low(out, *row as usize)?;
    }
    Ok(())
}
