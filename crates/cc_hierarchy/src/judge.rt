//! The classes of a file judged.

ghost use Rattle.std.specs.Prelude.{◌≡◌, ◌≢◌, ◌<◌, ◌^◌, length, IfOk, IfErr, OnOk};
ghost use Rattle.cc_meaning_program.specs.ClassFaults.{AreSound, IsClassFault};
ghost use Rattle.cc_hierarchy.specs.Indexes.{defined_name};

use crate::above::graph_above;
use crate::cycles::first_on_cycle;
use crate::definitions::{Definitions, defined_name};
use crate::duplicates::first_duplicate;
use crate::superclasses::first_without_superclass;
use cc_list::List;
use cc_meaning::fault::ProgramFault;
use cc_meaning::file::{Ids, RawClasses};
use cc_meaning::lists::Units;
use std::alloc::{AllocError, Global};

/// The name of the class that a definition is of, for a fault to keep.
fn copied_name(alloc: Global, ids: &Ids, number: u32) -> Result<Units, AllocError>
    ensures { IfOk result (λ name. name ≡ defined_name ids.now number) }
{
    List::from_slice(alloc, defined_name(ids, number))
}

/// Judges the classes of a file, whatever their code says. The classes are those of the file's definitions, in their order.
///
/// # Errors
///
/// The first fault, by the name of the first class in the file's order that has it. `Duplicate`: the class is built in, an earlier definition is of
/// it, or it defines a field or a method twice. `NoSuperclass`, where no class has that fault: it names no superclass, or an interface of the file,
/// an array, `String` or `StringBuilder`. `HierarchyCycle`, where no class has these faults: superclasses and interfaces lead from it back to it.
/// At any time `Memory`: there is no memory.
///
/// Source: Dalvik Executable format, section class_def_item.
pub fn judge_classes(alloc: Global, ids: &Ids, classes: &RawClasses) -> Result<(), ProgramFault>
    requires whole { length classes.now ≡ length ids.now.classes }
    requires few { length ids.now.classes < 2 ^ 32 }
    ensures sound { OnOk result (AreSound ids.now classes.now) }
    ensures fault { IfErr result (λ fault. fault ≢ ProgramFault.Memory → IsClassFault ids.now classes.now fault) }
{
    let definitions = Definitions::new(alloc, ids)?;
    if let Some(number) = first_duplicate(alloc, ids, classes.as_slice(), &definitions)? {
        let class = copied_name(alloc, ids, number)?;
        return Err(ProgramFault::Duplicate { class });
    }
    if let Some(number) = first_without_superclass(ids, &definitions) {
        let class = copied_name(alloc, ids, number)?;
        return Err(ProgramFault::NoSuperclass { class });
    }
    let graph = graph_above(alloc, ids, &definitions)?;
    match first_on_cycle(alloc, graph.as_slice())? {
        Some(number) => {
            let class = copied_name(alloc, ids, number)?;
            Err(ProgramFault::HierarchyCycle { class })
        }
        None => Ok(()),
    }
}
