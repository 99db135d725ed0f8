//! The graph of definitions, whose edges lead to those of the superclass and the interfaces that a definition names.

ghost use Rattle.std.specs.Prelude.{◌≡◌, ◌⊎◌, ◌↔◌, ◌<◌, ◌^◌, ℕ, length, Contains, IfOk, OnOk};
ghost use Rattle.cc_meaning_program.specs.Named.{type_name};
ghost use Rattle.cc_meaning_program.specs.Definitions.{Defines};
ghost use Rattle.cc_hierarchy.specs.Indexes.{Indexes};
ghost use Rattle.cc_hierarchy.specs.Judging.{HasOneEach, IsNextAbove, ShowsAbove};

use crate::definitions::Definitions;
use cc_list::List;
use cc_meaning::file::{ClassRow, Ids};
use cc_meaning::lists::Rows;
use cc_names::type_name;
use std::alloc::{AllocError, Global};

/// Adds the definition of the class of a row of types, where the file defines it.
fn add_definition(
    ids: &Ids,
    definitions: &Definitions,
    ty: u32,
    above: &mut Rows,
) -> Result<(), AllocError>
    requires index { Indexes ids.now definitions.now }
    requires distinct { HasOneEach ids.now }
    ensures { OnOk result ((number : ℕ) → Contains above.new number ↔ (Contains above.old number ⊎ Defines ids.now number (type_name ids.now ty))) }
{
    match definitions.find(ids, type_name(ids, ty)) {
        Some(number) => {
            above.push(number)?;
            Ok(())
        }
        None => Ok(()),
    }
}

/// The definition of the superclass that a definition names, where there is one.
fn superclass_of(
    alloc: Global,
    ids: &Ids,
    definitions: &Definitions,
    stated: &ClassRow,
) -> Result<Rows, AllocError>
    requires index { Indexes ids.now definitions.now }
    requires distinct { HasOneEach ids.now }
    ensures { IfOk result (λ above. (number : ℕ) → Contains above number ↔ ((ty : ℕ) × (stated.now.superclass ≡ Some ty) × Defines ids.now number (type_name ids.now ty))) }
{
    let mut above = Rows::new(alloc);
    match stated.superclass {
        Some(ty) => {
            add_definition(ids, definitions, ty, &mut above)?;
            Ok(above)
        }
        None => Ok(above),
    }
}

/// The definitions next above one.
fn next_above(
    alloc: Global,
    ids: &Ids,
    definitions: &Definitions,
    stated: &ClassRow,
) -> Result<Rows, AllocError>
    requires index { Indexes ids.now definitions.now }
    requires distinct { HasOneEach ids.now }
    ensures { IfOk result (λ above. (number : ℕ) → Contains above number ↔ IsNextAbove ids.now stated.now number) }
{
    let mut above = superclass_of(alloc, ids, definitions, stated)?;
    for ty in stated.interfaces.as_slice() {
        add_definition(ids, definitions, *ty, &mut above)?;
    }
    Ok(above)
}

/// The graph of a file's definitions.
pub(crate) fn graph_above(
    alloc: Global,
    ids: &Ids,
    definitions: &Definitions,
) -> Result<List<Rows>, AllocError>
    requires index { Indexes ids.now definitions.now }
    requires distinct { HasOneEach ids.now }
    ensures { IfOk result (ShowsAbove ids.now) }
{
    let mut graph = List::new(alloc);
    for stated in ids.classes.as_slice() {
        graph.push(next_above(alloc, ids, definitions, stated)?)?;
    }
    Ok(graph)
}
