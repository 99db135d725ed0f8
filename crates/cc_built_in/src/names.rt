//! The names of the built-in classes.

ghost use Rattle.std.specs.Prelude.{◌≡◌, ◌↔◌, ℕ, List, true, Contains, map, IfOk};
ghost use Rattle.cc_meaning.specs.BuiltIn.{is_built_in};
ghost use Rattle.cc_built_in.specs.BuiltInMethods.{BuiltInMethods, built_in_tables};

use crate::table::built_in_classes;
use crate::text::units_of;
use cc_list::List;
use cc_meaning::lists::Texts;
use std::alloc::{AllocError, Global};

/// The names of the built-in classes in their order.
pub fn built_in_names(alloc: Global) -> Result<Texts, AllocError>
    ensures are { IfOk result (λ names. names ≡ map (λ (table : BuiltInMethods). table.class) built_in_tables) }
    ensures all { IfOk result (λ names. (name : List ℕ) → Contains names name ↔ (is_built_in name ≡ true)) }
{
    let mut names = List::new(alloc);
    for class in built_in_classes() {
        names.push(units_of(alloc, class.name)?)?;
    }
    Ok(names)
}
