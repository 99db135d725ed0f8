//! Handlers of tries.

ghost use Rattle.std.specs.Prelude.{◌≡◌, ◌++◌, ◌≤◌, ◌%◌, ◌^◌, length, IfOk, OnOk};
ghost use Rattle.std.specs.List.{flat_map};
ghost use Rattle.cc_meaning_builder.specs.Forms.{any_takes_all, catch_form, handler_form, handlers_form, sleb_form, typed_count};

use crate::numbers::{Leb, put_count, put_uleb, short, sleb, uleb};
use cc_meaning::fault::Memory;
use cc_meaning::file::{RawCatch, RawTry};
use cc_meaning::lists::Bytes;

/// How many handlers are for a type.
fn typed_count(catches: &[RawCatch]) -> usize
    ensures { result ≡ typed_count catches.now }
{
    let mut count = 0;
    for catch in catches {
        if catch.row.is_some() {
            count += 1;
        }
    }
    count
}

/// The size in front of a handler: how many handlers there are for a type, as a negative number where one takes all.
fn size_of(catches: &[RawCatch]) -> Result<Leb, Memory>
    ensures { IfOk result (λ size. size.items ≡ sleb_form (any_takes_all catches.now) (typed_count catches.now)) }
{
    let typed = typed_count(catches);
    let size = short(typed)?;
    Ok(sleb(typed < catches.len(), size))
}

/// Puts a type and an address, or the address of what takes all.
fn put_catch(out: &mut Bytes, catch: &RawCatch) -> Result<(), Memory>
    ensures { OnOk result (out.new ≡ out.old ++ catch_form catch.now) }
{
    if let Some(row) = catch.row {
        put_uleb(out, row)?;
    }
    put_uleb(out, catch.at)
}

/// Puts handlers one behind the other.
fn put_catches(out: &mut Bytes, catches: &[RawCatch]) -> Result<(), Memory>
    ensures { OnOk result (out.new ≡ out.old ++ flat_map catch_form catches.now) }
{
    for catch in catches {
        put_catch(out, catch)?;
    }
    Ok(())
}

/// Puts the handler of a try.
/// Source: Dalvik Executable format, section encoded_catch_handler format.
#[tactic(auto, unfolding(cc_meaning_builder::specs::Forms::handler_form))]
fn put_handler(out: &mut Bytes, catches: &[RawCatch]) -> Result<(), Memory>
    ensures { OnOk result (out.new ≡ out.old ++ handler_form catches.now) }
{
    let size = size_of(catches)?;
    out.extend_from_slice(&size)?;
    put_catches(out, catches)
}

/// Puts the handlers of tries, one for each.
fn put_each(out: &mut Bytes, tries: &[RawTry]) -> Result<(), Memory>
    ensures { OnOk result (out.new ≡ out.old ++ flat_map (λ try. handler_form try.catches) tries.now) }
{
    for covered in tries {
        put_handler(out, covered.catches.as_slice())?;
    }
    Ok(())
}

/// Puts the list of the handlers of tries, one for each.
/// Source: Dalvik Executable format, section encoded_catch_handler_list.
pub fn put_handlers(out: &mut Bytes, tries: &[RawTry]) -> Result<(), Memory>
    ensures { OnOk result (out.new ≡ out.old ++ handlers_form tries.now) }
{
    put_count(out, tries.len())?;
    put_each(out, tries)
}

/// How many bytes a type and an address take, or the address of what takes all.
fn catch_size(catch: &RawCatch) -> usize
    ensures value { result ≡ length (catch_form catch.now) }
    ensures few { result ≤ 10 }
{
    let address = uleb(catch.at).len();
    match catch.row {
        Some(row) => uleb(row).len() + address,
        None => address,
    }
}

/// How many bytes the handler of a try takes, modulo 2 ^ 16.
#[tactic(auto, unfolding(cc_meaning_builder::specs::Forms::handler_form))]
pub fn handler_size(catches: &[RawCatch]) -> Result<u16, Memory>
    ensures { IfOk result (λ size. size ≡ length (handler_form catches.now) % 2 ^ 16) }
{
    let mut size = size_of(catches)?.len() as u16;
    for catch in catches {
        size = size.wrapping_add(catch_size(catch) as u16);
    }
    Ok(size)
}
