//! Code items.

ghost use Rattle.std.specs.Prelude.{◌≡◌, ◌++◌, length, OnOk};
ghost use Rattle.cc_meaning_builder.specs.Forms.{code_form, code_head, tries_form, tries_part, uleb_form};
ghost use Rattle.cc_items.specs.Listed.{try_form};

use crate::handlers::{handler_size, put_handlers};
use crate::numbers::{put_long_count, put_low, put_u16, put_u32, put_units, short, uleb};
use cc_meaning::fault::Memory;
use cc_meaning::file::{RawCode, RawTry};
use cc_meaning::lists::Bytes;

/// Puts a code item behind the bytes that are there, with no debug information. `outs` is the most registers that an invoke of the code passes.
/// Of what has 16 bits in the format, as the number of the tries, how many units a try covers and where its handler lies, the low 16 bits are put.
/// Source: Dalvik Executable format, section code_item.
///
/// # Errors
///
/// `Memory`: there is no memory, or there are 2 ^ 32 units, tries or handlers of a try or more.
#[tactic(auto, unfolding(cc_meaning_builder::specs::Forms::code_form))]
pub fn put_code(out: &mut Bytes, outs: u16, code: &RawCode) -> Result<(), Memory>
    ensures { OnOk result (out.new ≡ out.old ++ code_form outs code.now) }
{
    put_head(out, outs, code)?;
    put_units(out, code.units.as_slice())?;
    put_tries_part(out, code)
}

/// Puts what stands in front of a code item's units.
fn put_head(out: &mut Bytes, outs: u16, code: &RawCode) -> Result<(), Memory>
    ensures { OnOk result (out.new ≡ out.old ++ code_head outs code.now) }
{
    put_u16(out, code.registers)?;
    put_u16(out, code.ins)?;
    put_u16(out, outs)?;
    put_low(out, code.tries.len())?;
    put_u32(out, 0)?;
    put_long_count(out, code.units.len())
}

/// Puts the tries and their handlers, if there are any, behind a unit of padding where the count of units is odd.
fn put_tries_part(out: &mut Bytes, code: &RawCode) -> Result<(), Memory>
    ensures { OnOk result (out.new ≡ out.old ++ tries_part code.now) }
{
    if code.tries.is_empty() {
        return Ok(());
    }
    if code.units.len() % 2 != 0 {
        out.extend_from_slice(&[0, 0])?;
    }
    put_tries(out, code.tries.as_slice())?;
    put_handlers(out, code.tries.as_slice())
}

/// Puts tries, the first of which has its handler right behind the count of a handler list.
fn put_tries(out: &mut Bytes, tries: &[RawTry]) -> Result<(), Memory>
    ensures { OnOk result (out.new ≡ out.old ++ tries_form (length (uleb_form (length tries.now))) tries.now) }
{
    let mut offset = uleb(short(tries.len())?).len() as u16;
    for covered in tries {
        put_try(out, covered, offset)?;
        offset = offset.wrapping_add(handler_size(covered.catches.as_slice())?);
    }
    Ok(())
}

/// Puts a try, whose handler lies this far behind the start of the handler list.
/// Source: Dalvik Executable format, section try_item format.
fn put_try(out: &mut Bytes, covered: &RawTry, offset: u16) -> Result<(), Memory>
    ensures { OnOk result (out.new ≡ out.old ++ try_form offset covered.now) }
{
    put_u32(out, covered.start)?;
    put_low(out, covered.end.saturating_sub(covered.start) as usize)?;
    put_u16(out, offset)
}
