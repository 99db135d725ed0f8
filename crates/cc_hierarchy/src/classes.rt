//! Outlines of classes.

ghost use Rattle.std.specs.Prelude.{◌≡◌, ◌^◌, ◌<◌, Some, length, IfOk};
ghost use Rattle.std.specs.Option.{option_copied};
ghost use Rattle.cc_meaning.specs.declared.file.ClassRow.{ClassRow};
ghost use Rattle.cc_meaning_program.specs.ClassNames.{AreClassNames};
ghost use Rattle.cc_meaning_program.specs.Ancestry.{definition_of, stated_superclass, stated_interfaces, superclass_by_kind};
ghost use Rattle.cc_meaning.specs.BuiltIn.{built_in_superclass};
ghost use Rattle.cc_meaning_program.specs.Rows.{ClassFits, FitTables};
ghost use Rattle.cc_meaning_program.specs.Outlines.{IsNumberOf, AreNumbersOf, IsOutline, AreOutlines};
ghost use Rattle.cc_hierarchy.specs.Numbers.{AreReady};

use crate::Definitions;
use crate::kinds::{is_exception, kind_of_class};
use crate::numbers::{number_of, numbers_of_texts};
use crate::sources::{Sources, roots_of};
use cc_built_in::built_in_superclass;
use cc_list::List;
use cc_meaning::fault::Memory;
use cc_meaning::file::{ClassRow, Ids};
use cc_meaning::lists::{ClassIx, ClassList, Texts};
use cc_meaning::program::ClassKind;
use cc_meaning_program::{Outline, Outlines};
use std::alloc::{AllocError, Global};

/// The number of the superclass that a definition names.
#[tactic(auto, unfolding(cc_meaning_program::specs::Ancestry::stated_superclass))]
fn stated_superclass(sources: &Sources<'_>, stated: Option<&ClassRow>) -> Option<ClassIx>
    requires ready { AreReady sources.now }
    requires fits { (class : ClassRow) → option_copied stated ≡ Some class → ClassFits sources.now.ids.now class }
    ensures { IsNumberOf sources.now.names.now (stated_superclass sources.now.ids.now (option_copied stated.entry)) result }
{
    let row = stated?.superclass?;
    Some(sources.number_of_type(row))
}

/// The numbers of the interfaces that a definition names.
#[tactic(auto, unfolding(cc_meaning_program::specs::Ancestry::stated_interfaces))]
fn stated_interfaces(
    alloc: Global,
    sources: &Sources<'_>,
    stated: Option<&ClassRow>,
) -> Result<ClassList, AllocError>
    requires ready { AreReady sources.now }
    requires fits { (class : ClassRow) → option_copied stated ≡ Some class → ClassFits sources.now.ids.now class }
    ensures { IfOk result (AreNumbersOf sources.now.names.now (stated_interfaces sources.now.ids.now (option_copied stated.entry))) }
{
    let mut interfaces = List::new(alloc);
    let Some(stated) = stated else {
        return Ok(interfaces);
    };
    for row in stated.interfaces.as_slice() {
        interfaces.push(sources.number_of_type(*row))?;
    }
    Ok(interfaces)
}

/// The number of the superclass of a built-in class.
fn superclass_of_built_in(
    alloc: Global,
    sources: &Sources<'_>,
    name: &[u16],
) -> Result<Option<ClassIx>, AllocError>
    requires ready { AreReady sources.now }
    ensures { IfOk result (IsNumberOf sources.now.names.now (built_in_superclass name.now)) }
{
    match built_in_superclass(name) {
        Some(superclass) => Ok(Some(number_of(alloc, sources.names, superclass)?)),
        None => Ok(None),
    }
}

/// The number of a class's superclass.
#[tactic(auto, unfolding(cc_meaning_program::specs::Ancestry::superclass_by_kind))]
fn superclass_by_kind(
    alloc: Global,
    sources: &Sources<'_>,
    name: &[u16],
    kind: ClassKind,
    stated: Option<&ClassRow>,
) -> Result<Option<ClassIx>, AllocError>
    requires ready { AreReady sources.now }
    requires stated { option_copied stated ≡ definition_of sources.now.ids.now name.now }
    requires fits { (class : ClassRow) → option_copied stated ≡ Some class → ClassFits sources.now.ids.now class }
    ensures { IfOk result (IsNumberOf sources.now.names.now (superclass_by_kind sources.now.ids.now name.now kind)) }
{
    let roots = sources.roots;
    match kind {
        ClassKind::File => Ok(stated_superclass(sources, stated)),
        ClassKind::BuiltIn => superclass_of_built_in(alloc, sources, name),
        ClassKind::Outside | ClassKind::Array => Ok(Some(roots.object)),
        ClassKind::OutsideError if is_exception(name) => Ok(Some(roots.exception)),
        ClassKind::OutsideError => Ok(Some(roots.error)),
    }
}

/// The outline of the class of a name.
fn outline(alloc: Global, sources: &Sources<'_>, name: &[u16]) -> Result<Outline, AllocError>
    requires ready { AreReady sources.now }
    ensures { IfOk result (IsOutline sources.now.ids.now sources.now.names.now name.now) }
{
    let definition = sources.definition(name);
    let stated = sources.stated(definition);
    let kind = kind_of_class(name, stated.is_some());
    let superclass = superclass_by_kind(alloc, sources, name, kind, stated)?;
    let interfaces = stated_interfaces(alloc, sources, stated)?;
    Ok(Outline {
        kind,
        definition,
        superclass,
        interfaces,
    })
}

/// The outlines of a program's classes, in the order of their names.
///
/// # Errors
///
/// `Memory`: there is no memory.
///
/// Source: Dalvik Executable format, section class_def_item.
pub fn outlines(alloc: Global, ids: &Ids, names: &Texts) -> Result<Outlines, Memory>
    requires tables { FitTables ids.now }
    requires names { AreClassNames ids.now names.now }
    requires few { length names.now < 2 ^ 32 }
    requires definitions { length ids.now.classes < 2 ^ 32 }
    ensures { IfOk result (AreOutlines ids.now names.now) }
{
    let definitions = Definitions::new(alloc, ids)?;
    let by_text = numbers_of_texts(alloc, ids, names)?;
    let sources = Sources {
        ids,
        names,
        definitions: &definitions,
        by_text: by_text.as_slice(),
        roots: roots_of(alloc, ids, names)?,
    };
    let mut outlines = List::new(alloc);
    for name in names.as_slice() {
        let made = outline(alloc, &sources, name.as_slice())?;
        outlines.push(made)?;
    }
    Ok(outlines)
}
