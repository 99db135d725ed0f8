//! Tries and their handlers.

ghost use Rattle.std.specs.Prelude.{◌≡◌, IfOk};
ghost use Rattle.std.specs.List.{flat_map};
ghost use Rattle.cc_meaning_dex.specs.Classes.{EachPair};
ghost use Rattle.cc_meaning_builder.specs.Members.{IsRawCatch, IsRawTry};
ghost use Rattle.cc_meaning_builder.specs.Named.{catch_names, try_names};
ghost use Rattle.cc_meaning_builder.specs.Tables.{AreOrdered};
ghost use Rattle.cc_tables.specs.Rows.{FewRows};
ghost use Rattle.cc_builder.specs.Known.{AreKnown};

use crate::rows::class_row;
use cc_list::List;
use cc_meaning::fault::Memory;
use cc_meaning::file::{Ids, RawCatch, RawCatches, RawTries, RawTry};
use cc_meaning::listing::{ListedCatch, ListedTry};
use std::alloc::Global;

/// A handler, with the row of what it takes.
fn raw_catch(ids: &Ids, catch: &ListedCatch) -> RawCatch
    requires few { FewRows ids.now }
    requires ordered { AreOrdered ids.now }
    ensures { AreKnown ids.now (catch_names catch.now) → IsRawCatch ids.now catch.now result }
{
    let row = match &catch.class {
        Some(name) => Some(class_row(ids, name.as_slice())),
        None => None,
    };
    RawCatch { row, at: catch.at }
}

/// The handlers of a try.
fn raw_catches(alloc: Global, ids: &Ids, catches: &[ListedCatch]) -> Result<RawCatches, Memory>
    requires few { FewRows ids.now }
    requires ordered { AreOrdered ids.now }
    ensures { IfOk result (λ made. AreKnown ids.now (flat_map catch_names catches.now) → EachPair (IsRawCatch ids.now) catches.now made) }
{
    let mut made = List::new(alloc);
    for catch in catches {
        made.push(raw_catch(ids, catch))?;
    }
    Ok(made)
}

/// A try, with the rows of what its handlers take.
fn raw_try(alloc: Global, ids: &Ids, listed: &ListedTry) -> Result<RawTry, Memory>
    requires few { FewRows ids.now }
    requires ordered { AreOrdered ids.now }
    ensures { IfOk result (λ made. AreKnown ids.now (try_names listed.now) → IsRawTry ids.now listed.now made) }
{
    let catches = raw_catches(alloc, ids, listed.catches.as_slice())?;
    Ok(RawTry {
        start: listed.start,
        end: listed.end,
        catches,
    })
}

/// The tries of a method's code.
pub fn raw_tries(alloc: Global, ids: &Ids, tries: &[ListedTry]) -> Result<RawTries, Memory>
    requires few { FewRows ids.now }
    requires ordered { AreOrdered ids.now }
    ensures { IfOk result (λ made. AreKnown ids.now (flat_map try_names tries.now) → EachPair (IsRawTry ids.now) tries.now made) }
{
    let mut made = List::new(alloc);
    for listed in tries {
        made.push(raw_try(alloc, ids, listed)?)?;
    }
    Ok(made)
}
