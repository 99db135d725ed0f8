//! The numbers of names among a program's class names.

ghost use Rattle.std.specs.Prelude.{◌≡◌, ◌^◌, ◌<◌, Some, Contains, length, slice_get, IfOk};
ghost use Rattle.cc_meaning.specs.Order.{IsRising};
ghost use Rattle.cc_hierarchy.specs.Numbers.{AreTextNumbers};

use cc_built_in::units_of;
use cc_list::List;
use cc_meaning::file::Ids;
use cc_meaning::lists::{ClassIx, Texts};
use cc_names::find;
use std::alloc::{AllocError, Global};

/// For each row of texts the number of the class that its text names, where it names one. So the name that types share is looked up once.
pub(crate) fn numbers_of_texts(
    alloc: Global,
    ids: &Ids,
    names: &Texts,
) -> Result<List<Option<ClassIx>>, AllocError>
    requires few { length names.now < 2 ^ 32 }
    requires rise { IsRising names.now }
    ensures { IfOk result (AreTextNumbers names.now ids.now.texts) }
{
    let mut numbers = List::new(alloc);
    for text in ids.texts.as_slice() {
        numbers.push(find(names, text.as_slice()))?;
    }
    Ok(numbers)
}

/// The number of a class that is known to be there.
pub(crate) fn number_of(alloc: Global, names: &Texts, name: &[u8]) -> Result<ClassIx, AllocError>
    requires few { length names.now < 2 ^ 32 }
    requires rise { IsRising names.now }
    requires there { Contains names.now name.now }
    ensures { IfOk result (λ number. slice_get names.now number ≡ Some name.now) }
{
    let units = units_of(alloc, name)?;
    match find(names, units.as_slice()) {
        Some(number) => Ok(number),
        None => unreachable!(),
    }
}
