//! The methods that built-in classes and arrays list.

ghost use Rattle.std.specs.Prelude.{◌≡◌, option_map, slice_get};
ghost use Rattle.std.specs.Option.{option_copied};
ghost use Rattle.cc_meaning_program.specs.OwnMembers.{built_in_by_kind};
ghost use Rattle.cc_built_in.specs.Listed.{AreMethods, method_of};

use cc_built_in::table::ListedMethod;
use cc_built_in::{array_methods, methods_of_class};
use cc_meaning::program::ClassKind;

/// The methods that a class lists itself, by what the class is.
fn methods_listed(kind: ClassKind, class: &[u16]) -> &'static [ListedMethod]
    ensures { AreMethods class.now result.now (built_in_by_kind kind class.now) }
{
    match kind {
        ClassKind::BuiltIn => methods_of_class(class),
        ClassKind::Array => array_methods(),
        _ => &[],
    }
}

/// The method at a place among those that a class lists itself, by what the class is.
pub fn method_listed(kind: ClassKind, class: &[u16], place: u32) -> Option<&'static ListedMethod>
    ensures { option_map (method_of class.now) (option_copied result) ≡ slice_get (built_in_by_kind kind class.now) place }
{
    methods_listed(kind, class).get(place as usize)
}
