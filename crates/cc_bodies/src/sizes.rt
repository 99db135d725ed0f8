//! Code whose units have addresses of 32 bits.

ghost use Rattle.std.specs.Prelude.{◌≡◌, ◌↔◌, IsTrue};
ghost use Rattle.cc_meaning_program.specs.CodeSizes.{HasFewUnits, MethodsHaveFewUnits, HaveFewUnits};

use cc_meaning::file::{RawClass, RawClasses, RawMethod};

fn has_few_units(method: &RawMethod) -> bool
    ensures { IsTrue result ↔ HasFewUnits method.now }
{
    match &method.code {
        Some(code) => code.units.len() <= u32::MAX as usize,
        None => true,
    }
}

fn methods_have_few_units(methods: &[RawMethod]) -> bool
    ensures { IsTrue result ↔ MethodsHaveFewUnits methods.now }
{
    for method in methods {
        if !has_few_units(method) {
            return false;
        }
    }
    true
}

fn classes_have_few_units(classes: &[RawClass]) -> bool
    ensures { IsTrue result ↔ HaveFewUnits classes.now }
{
    for class in classes {
        if !methods_have_few_units(class.methods.as_slice()) {
            return false;
        }
    }
    true
}

/// Whether the code of each method has fewer than 2 ^ 32 units, as it has where a file spells these classes.
pub fn have_few_units(classes: &RawClasses) -> bool
    ensures { IsTrue result ↔ HaveFewUnits classes.now }
{
    classes_have_few_units(classes.as_slice())
}
