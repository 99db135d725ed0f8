//! The methods of a class.

ghost use Rattle.std.specs.Prelude.{◌≡◌, map, IfOk};
ghost use Rattle.std.specs.List.{flat_map};
ghost use Rattle.cc_meaning_dex.specs.Classes.{EachPair};
ghost use Rattle.cc_meaning_builder.specs.Members.{code_outs};
ghost use Rattle.cc_meaning_builder.specs.Named.{method_names};
ghost use Rattle.cc_meaning_builder.specs.Tables.{AreOrdered};
ghost use Rattle.cc_tables.specs.Rows.{FewRows};
ghost use Rattle.cc_builder.specs.Known.{AreKnown};
ghost use Rattle.cc_builder.specs.Placed.{AreSortedMethods, IsPlacedMethod};

use crate::code::raw_code_of;
use crate::flags::{is_direct_method, list_place};
use crate::rows::method_row;
use cc_list::List;
use cc_meaning::fault::Memory;
use cc_meaning::file::{Ids, RawMethod, RawMethods};
use cc_meaning::listing::Listing;
use cc_meaning::lists::Units;
use cc_meaning_builder::content::ListedMethod;
use std::alloc::Global;

/// A method with its row and its code, and the most registers that an invoke of its code passes, 0 without code.
#[derive(Drop)]
pub struct PlacedMethod {
    pub raw: RawMethod,
    pub outs: u16,
}

/// The most registers that an invoke of a method's code passes, 0 without code.
fn code_outs(code: &Option<Listing>) -> u16
    ensures { result ≡ code_outs code.now }
{
    match code {
        Some(listing) => listing.outs,
        None => 0,
    }
}

/// A method of a class with its row and its code.
fn placed_method(
    alloc: Global,
    ids: &Ids,
    class: &[u16],
    method: &ListedMethod,
) -> Result<PlacedMethod, Memory>
    requires few { FewRows ids.now }
    requires ordered { AreOrdered ids.now }
    ensures { IfOk result (λ placed. AreKnown ids.now (method_names class.now method.now) → IsPlacedMethod ids.now class.now method.now placed) }
{
    let row = method_row(ids, class, method.name.as_slice(), method.proto.as_slice());
    let code = raw_code_of(alloc, ids, row, method.flags, &method.code)?;
    let raw = RawMethod {
        row,
        flags: method.flags,
        is_direct: is_direct_method(method.flags, method.name.as_slice()),
        code,
    };
    Ok(PlacedMethod {
        raw,
        outs: code_outs(&method.code),
    })
}

/// The methods of a class with their rows, in the order in which they were added.
fn placed_methods(
    alloc: Global,
    ids: &Ids,
    class: &[u16],
    methods: &[ListedMethod],
) -> Result<List<PlacedMethod>, Memory>
    requires few { FewRows ids.now }
    requires ordered { AreOrdered ids.now }
    ensures { IfOk result (λ placed. AreKnown ids.now (flat_map (method_names class.now) methods.now) → EachPair (IsPlacedMethod ids.now class.now) methods.now placed) }
{
    let mut placed = List::new(alloc);
    for method in methods {
        placed.push(placed_method(alloc, ids, class, method)?)?;
    }
    Ok(placed)
}

/// The methods of a class with their rows, in the order of a file.
pub fn sorted_methods(
    alloc: Global,
    ids: &Ids,
    class: &[u16],
    methods: &[ListedMethod],
) -> Result<List<PlacedMethod>, Memory>
    requires few { FewRows ids.now }
    requires ordered { AreOrdered ids.now }
    ensures { IfOk result (λ placed. AreKnown ids.now (flat_map (method_names class.now) methods.now) → AreSortedMethods ids.now class.now methods.now placed) }
{
    let mut placed = placed_methods(alloc, ids, class, methods)?.into_vec();
    placed.sort_by_key(|method| list_place(method.raw.is_direct, method.raw.row))?;
    Ok(List::from_vec(placed))
}

/// How many registers the code of each method passes.
pub fn outs(alloc: Global, placed: &[PlacedMethod]) -> Result<Units, Memory>
    ensures { IfOk result (λ outs. outs ≡ map (λ method. method.outs) placed.now) }
{
    let outs = placed.iter().map(|method| method.outs).collect(alloc)?;
    Ok(List::from_vec(outs))
}

/// The methods without what their code passes.
pub fn raw_methods(alloc: Global, placed: List<PlacedMethod>) -> Result<RawMethods, Memory>
    ensures { IfOk result (λ methods. methods ≡ map (λ method. method.raw) placed) }
{
    let mut methods = List::new(alloc);
    for method in placed {
        methods.push(method.raw)?;
    }
    Ok(methods)
}
