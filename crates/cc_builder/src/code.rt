//! The code of a method.

ghost use Rattle.std.specs.Prelude.{◌≡◌, ◌≤◌, ◌<◌, ◌+◌, ◌^◌, ℕ, Some, IfOk};
ghost use Rattle.std.specs.List.{sum_by};
ghost use Rattle.cc_meaning_dex.specs.CodeItems.{argument_registers, is_wide, type_width};
ghost use Rattle.cc_meaning_builder.specs.Members.{HasRawCode, IsRawCode};
ghost use Rattle.cc_meaning_builder.specs.Named.{code_names};
ghost use Rattle.cc_meaning_builder.specs.Tables.{AreOrdered};
ghost use Rattle.cc_tables.specs.Rows.{FewRows};
ghost use Rattle.cc_builder.specs.Known.{AreKnown};

use crate::catches::raw_tries;
use crate::flags::{STATIC, has_flag};
use crate::units::put_rows;
use cc_meaning::fault::Memory;
use cc_meaning::file::{Ids, RawCode};
use cc_meaning::listing::Listing;
use cc_names::type_name;
use std::alloc::Global;

/// `J`, the descriptor of a long.
const LONG: u16 = 74;

/// `D`, the descriptor of a double.
const DOUBLE: u16 = 68;

/// Whether a descriptor is that of a long or a double.
fn is_wide(name: &[u16]) -> bool
    ensures { result ≡ is_wide name.now }
{
    matches!(name, [LONG | DOUBLE, ..])
}

/// How many registers a parameter of a type takes.
#[tactic(auto, using(crate::proofs::Widths::width_by_name))]
fn type_width(ids: &Ids, row: u32) -> u16
    ensures exact { result ≡ type_width ids.now row }
    ensures few { result ≤ 2 }
{
    if is_wide(type_name(ids, row)) { 2 } else { 1 }
}

/// How many registers parameters of these types take beside so many others, where 16 bits hold that.
fn registers_with(ids: &Ids, params: &[u32], receiver: u16) -> u16
    ensures { receiver + sum_by (type_width ids.now) params.now < 2 ^ 16 → result ≡ receiver + sum_by (type_width ids.now) params.now }
{
    let mut taken = receiver;
    for row in params {
        taken = taken.saturating_add(type_width(ids, *row));
    }
    taken
}

/// How many registers the arguments of a method take, where 16 bits hold that. 0 where the tables don't have it.
fn argument_registers(ids: &Ids, row: u32, flags: u32) -> u16
    ensures { (count : ℕ) → argument_registers ids.now row flags ≡ Some count → count < 2 ^ 16 → result ≡ count }
{
    let Some(method) = ids.methods.get(row as usize) else {
        return 0;
    };
    let Some(prototype) = ids.protos.get(method.proto as usize) else {
        return 0;
    };
    let receiver = if has_flag(flags, STATIC) { 0 } else { 1 };
    registers_with(ids, prototype.params.as_slice(), receiver)
}

/// The code of a method of this row and these flags.
fn raw_code(
    alloc: Global,
    ids: &Ids,
    row: u32,
    flags: u32,
    listing: &Listing,
) -> Result<RawCode, Memory>
    requires few { FewRows ids.now }
    requires ordered { AreOrdered ids.now }
    ensures { IfOk result (λ code. AreKnown ids.now (code_names (Some listing.now)) → IsRawCode ids.now row flags listing.now code) }
{
    let mut units = listing.units.copy()?;
    put_rows(ids, listing.marks.as_slice(), &mut units)?;
    let tries = raw_tries(alloc, ids, listing.tries.as_slice())?;
    Ok(RawCode {
        registers: listing.registers,
        ins: argument_registers(ids, row, flags),
        units,
        tries,
    })
}

/// The code of a method of this row and these flags, where there is code.
pub fn raw_code_of(
    alloc: Global,
    ids: &Ids,
    row: u32,
    flags: u32,
    code: &Option<Listing>,
) -> Result<Option<RawCode>, Memory>
    requires few { FewRows ids.now }
    requires ordered { AreOrdered ids.now }
    ensures { IfOk result (λ made. AreKnown ids.now (code_names code.now) → HasRawCode ids.now row flags code.now made) }
{
    match code {
        Some(listing) => {
            let made = raw_code(alloc, ids, row, flags, listing)?;
            Ok(Some(made))
        }
        None => Ok(None),
    }
}
