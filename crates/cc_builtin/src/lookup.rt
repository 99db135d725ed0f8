//! Classes by name.

ghost use Rattle.std.specs.Prelude.{◌≡◌, ◌^◌, ◌≤◌, ◌↔◌, length, IsTrue, IfOk};
ghost use Rattle.cc_meaning.specs.BuiltIn.{null_pointer_exception_name, string_index_out_of_bounds_exception_name};
ghost use Rattle.cc_meaning.specs.Lookup.{class_named};
ghost use Rattle.cc_meaning.specs.Order.{IsRisingByName};

use cc_built_in::units_of;
use cc_meaning::lists::ClassIx;
use cc_meaning::program::{Class, Program};
use cc_program_names::class_named;
use std::alloc::{AllocError, Global};

#[tactic(auto, unfolding(cc_meaning::specs::BuiltIn::null_pointer_exception_name))]
pub(crate) fn null_pointer_exception(
    alloc: Global,
    program: &Program,
) -> Result<Option<ClassIx>, AllocError>
    requires few { length program.now.classes ≤ 2 ^ 32 }
    requires rising { IsRisingByName program.now.classes }
    ensures { IfOk result (λ class. class ≡ class_named null_pointer_exception_name program.now) }
{
    let name = units_of(alloc, b"Ljava/lang/NullPointerException;")?;
    Ok(class_named(program, name.as_slice()))
}

#[tactic(auto, unfolding(cc_meaning::specs::BuiltIn::string_index_out_of_bounds_exception_name))]
pub(crate) fn string_index_out_of_bounds_exception(
    alloc: Global,
    program: &Program,
) -> Result<Option<ClassIx>, AllocError>
    requires few { length program.now.classes ≤ 2 ^ 32 }
    requires rising { IsRisingByName program.now.classes }
    ensures { IfOk result (λ class. class ≡ class_named string_index_out_of_bounds_exception_name program.now) }
{
    let name = units_of(alloc, b"Ljava/lang/StringIndexOutOfBoundsException;")?;
    Ok(class_named(program, name.as_slice()))
}

/// Whether each class's name comes before that of the next one, and so of all later ones. A program's classes stand so.
pub fn is_rising(classes: &[Class]) -> bool
    ensures { IsTrue result ↔ IsRisingByName classes.now }
{
    for at in 1..classes.len() {
        if !classes[at - 1].name.cmp(&classes[at].name).is_lt() {
            return false;
        }
    }
    true
}
