//! The classes of a script's text, with the first fault of shape.

ghost use Rattle.std.specs.Prelude.{◌≡◌, option_map, ◌+◌, ◌∷◌, [], ◌++◌, ℕ, List, IfOk, min, ◌^◌, ◌-◌};
ghost use Rattle.serde_json.specs.View.{view, items_view};
ghost use Rattle.cc_meaning_script.specs.Listed.{capped, class_of, class_behind, class_items, classes_from, listed_classes};
ghost use Rattle.cc_script.specs.Gives.{Gives};
ghost use Rattle.cc_script.specs.Seen.{Holds};

use crate::listing::{class, size};
use crate::repeats::{add, contradicts};
use cc_list::List;
use cc_meaning::fault::ScriptFault;
use cc_meaning_script::listed::{ListedClass, ListedClasses};
use serde_json::Value;
use std::alloc::Global;
use std::collections::HashSet;

/// A place as a number of 32 bits, which stands still at its type's end.
#[tactic(auto, using(crate::proofs::Places::few_places, crate::proofs::Places::many_places))]
pub(crate) fn place_of(at: usize) -> u32
    ensures { result ≡ capped at }
{
    if at < u32::MAX as usize {
        at as u32
    } else {
        u32::MAX
    }
}

/// The class at a place, behind the classes whose names were seen.
fn class_behind(
    alloc: Global,
    place: usize,
    seen: &mut HashSet<String>,
    value: &Value,
) -> Result<ListedClass, ScriptFault>
    ensures gives { (before : List (List ℕ)) → Holds before seen.old → Gives (class_behind place before (class_of (view value.now))) result }
    ensures seen { IfOk result (λ class. (before : List (List ℕ)) → Holds before seen.old → Holds (before ++ class.name ∷ []) seen.new) }
{
    let Some(listed) = class(alloc, value)? else {
        return Err(ScriptFault::BadShape {
            at: place_of(place),
        });
    };
    if seen.contains(listed.name.as_str()) {
        return Err(ScriptFault::BadShape {
            at: place_of(place),
        });
    }
    if contradicts(alloc, &listed)? {
        return Err(ScriptFault::BadShape {
            at: place_of(place),
        });
    }
    add(alloc, seen, &listed.name)?;
    Ok(listed)
}

fn classes(alloc: Global, items: &[Value]) -> Result<ListedClasses, ScriptFault>
    ensures { Gives (classes_from 0 [] (items_view items.now)) result }
{
    let mut seen = HashSet::new(alloc);
    let mut classes = List::new(alloc);
    for (place, item) in items.iter().enumerate() {
        match class_behind(alloc, place, &mut seen, item) {
            Ok(class) => classes.push(class)?,
            Err(fault) => return Err(fault),
        }
    }
    Ok(classes)
}

/// What stands at the one key `classes`.
fn class_values(value: &Value) -> Option<&[Value]>
    ensures { option_map (λ items. items_view items.now) result ≡ class_items (view value.now) }
{
    if size(value) != 1 {
        return None;
    }
    let items = value.get("classes")?.as_array()?;
    Some(items.as_slice())
}

/// The classes that a value lists.
pub(crate) fn listed_classes(alloc: Global, value: &Value) -> Result<ListedClasses, ScriptFault>
    ensures { Gives (listed_classes (view value.now)) result }
{
    match class_values(value) {
        Some(items) => classes(alloc, items),
        None => Err(ScriptFault::BadShape { at: 0 }),
    }
}
