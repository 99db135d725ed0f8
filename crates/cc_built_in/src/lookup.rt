//! Built-in classes by their names.

ghost use Rattle.std.specs.Prelude.{◌≡◌, true, find, option_map, IfSome};
ghost use Rattle.std.specs.Option.{option_copied};
ghost use Rattle.std.specs.Str.{bytes_eq};
ghost use Rattle.cc_meaning.specs.BuiltIn.{is_built_in, is_built_in_throwable, built_in_superclass};
ghost use Rattle.cc_built_in.specs.BuiltInMethods.{methods_of_class};
ghost use Rattle.cc_built_in.specs.Listed.{AreMethods, IsClassOf};

use crate::table::{ListedClass, ListedMethod, built_in_classes};
use crate::text::spells;

/// The first of these classes that has this name.
fn class_among<'a>(classes: &'a [ListedClass], name: &[u16]) -> Option<&'a ListedClass>
    ensures { option_copied result ≡ find (λ class. bytes_eq class.name.now name.now) classes.now }
{
    for class in classes {
        if spells(name, class.name) {
            return Some(class);
        }
    }
    None
}

/// The built-in class of a name.
pub fn built_in_class(name: &[u16]) -> Option<&'static ListedClass>
    ensures { IsClassOf name.now (option_copied result) }
{
    class_among(built_in_classes(), name)
}

/// Whether a name is that of a built-in class.
pub fn is_built_in(name: &[u16]) -> bool
    ensures { result ≡ is_built_in name.now }
{
    built_in_class(name).is_some()
}

/// Whether a name is that of `Throwable` or of a built-in class below it.
#[tactic(auto, unfolding(crate::specs::Listed::is_throwable_in))]
pub fn is_built_in_throwable(name: &[u16]) -> bool
    ensures { result ≡ is_built_in_throwable name.now }
{
    match built_in_class(name) {
        Some(class) => class.is_throwable,
        None => false,
    }
}

/// The superclass of the built-in class of a name. `None` for `Object`, and where no built-in class has this name.
pub fn built_in_superclass(name: &[u16]) -> Option<&'static [u8]>
    ensures is { option_map (λ superclass. superclass.now) result ≡ built_in_superclass name.now }
    ensures known { IfSome result (λ superclass. is_built_in superclass.now ≡ true) }
{
    match built_in_class(name) {
        Some(class) => class.superclass,
        None => None,
    }
}

/// The methods of the built-in class of a name, none where no built-in class has this name.
#[tactic(auto, unfolding(crate::specs::Listed::methods_in))]
pub fn methods_of_class(name: &[u16]) -> &'static [ListedMethod]
    ensures { AreMethods name.now result.now (methods_of_class name.now) }
{
    match built_in_class(name) {
        Some(class) => class.methods,
        None => &[],
    }
}
