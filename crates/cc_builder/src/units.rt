//! Rows put into units of code.

ghost use Rattle.std.specs.Prelude.{◌≡◌, map, slice_set, OnOk, OnErr};
ghost use Rattle.cc_meaning_builder.specs.Members.{is_wide_row, put_row, HasRoom, ArePut};
ghost use Rattle.cc_meaning_builder.specs.Tables.{AreOrdered};
ghost use Rattle.cc_tables.specs.Rows.{FewRows};
ghost use Rattle.cc_builder.specs.Known.{AreKnown};

use crate::rows::named_row;
use cc_meaning::fault::Memory;
use cc_meaning::file::Ids;
use cc_meaning::listing::Mark;
use cc_meaning::lists::Units;

/// The opcode of const-string/jumbo.
const CONST_STRING_JUMBO: u16 = 27;

/// Whether a row's number takes two units at this place: the unit before is the first of a const-string/jumbo.
fn is_wide_row(at: usize, units: &[u16]) -> bool
    ensures { result ≡ is_wide_row at units.now }
{
    if at == 0 {
        return false;
    }
    match units.get(at - 1) {
        Some(unit) => unit % 256 == CONST_STRING_JUMBO,
        None => false,
    }
}

/// Puts a unit at a place, where there is one.
fn put_unit(units: &mut Units, at: usize, unit: u16)
    ensures { units.new ≡ slice_set units.old at unit }
{
    if at < units.len() {
        units.set(at, unit);
    }
}

/// Puts a row's number at a place: in one unit, or in two behind the opcode of const-string/jumbo.
///
/// # Errors
///
/// `Memory`: one unit has no room for the row. The units are as they were.
#[tactic(auto, unfolding(cc_meaning_builder::specs::Members::put_row))]
pub fn put_row(units: &mut Units, at: u32, number: u32) -> Result<(), Memory>
    ensures room { OnOk result (HasRoom at number units.old) }
    ensures put { OnOk result (units.new ≡ put_row at number units.old) }
    ensures cause { OnErr result (¬ HasRoom at number units.old) }
    ensures refused { OnErr result (units.new ≡ units.old) }
{
    let at = at as usize;
    if is_wide_row(at, units.as_slice()) {
        put_unit(units, at, (number % 65536) as u16);
        put_unit(units, at + 1, (number / 65536) as u16);
        return Ok(());
    }
    let unit = u16::try_from(number).map_err(|_| Memory)?;
    put_unit(units, at, unit);
    Ok(())
}

/// Puts the row that each mark names at its place.
///
/// # Errors
///
/// `Memory`: a place of one unit has no room for its row.
pub fn put_rows(ids: &Ids, marks: &[Mark], units: &mut Units) -> Result<(), Memory>
    requires few { FewRows ids.now }
    requires ordered { AreOrdered ids.now }
    ensures { OnOk result (AreKnown ids.now (map (λ mark. mark.row) marks.now) → ArePut ids.now marks.now units.old units.new) }
{
    for mark in marks {
        put_row(units, mark.at, named_row(ids, &mark.row))?;
    }
    Ok(())
}
