//! The items of classes: code, class data and values.

ghost use Rattle.std.specs.Prelude.{◌≡◌, ℕ, List, slice_get, Some, IfOk};
ghost use Rattle.cc_meaning_dex.specs.Classes.{EachPair};
ghost use Rattle.std.specs.Option.{option_copied};
ghost use Rattle.cc_meaning_builder.specs.Written.{ClassesPass, ClassPasses, CodePasses, IsClassWritten, IsMethodWritten, IsSameClass, MethodsPass};
ghost use Rattle.cc_dex_writer.specs.Items.{AreFirstWritten, WhereGiven};
ghost use Rattle.cc_dex_writer.specs.Section.{Adds};

use crate::section::Section;
use crate::widths::small_class;
use cc_list::List;
use cc_meaning::fault::Memory;
use cc_meaning::file::{ClassRow, ClassRows, Ids, RawClass, RawClasses, RawMethod};
use cc_meaning_builder::content::Outs;
use cc_meaning_dex::StatedMethod;
use std::alloc::Global;

/// Adds the code of a method, where it has some, and answers how its class data states it.
fn add_method(section: &mut Section, outs: u16, method: &RawMethod) -> Result<StatedMethod, Memory>
    ensures written { IfOk result (λ stated. Adds section.old section.new (λ file. IsMethodWritten file stated method.now)) }
    ensures passed { IfOk result (λ stated. Adds section.old section.new (λ file. CodePasses file stated.code_at outs)) }
{
    let code_at = match &method.code {
        Some(code) => section.add_code(outs, code)?,
        None => 0,
    };
    Ok(StatedMethod {
        row: method.row,
        flags: method.flags,
        is_direct: method.is_direct,
        code_at,
    })
}

/// The most arguments that the code of the method of a number passes, 0 where nothing is said of it.
fn passed_by(outs: &[u16], number: usize) -> u16
    ensures { (passed : ℕ) → slice_get outs.now number ≡ Some passed → result ≡ passed }
{
    match outs.get(number) {
        Some(passed) => *passed,
        None => 0,
    }
}

/// Adds the code of methods, and answers how their class data states them. `outs` has the most arguments that each one's code passes.
fn add_methods(
    alloc: Global,
    section: &mut Section,
    methods: &[RawMethod],
    outs: &[u16],
) -> Result<List<StatedMethod>, Memory>
    ensures written { IfOk result (λ stated. Adds section.old section.new (λ file. EachPair (IsMethodWritten file) stated methods.now)) }
    ensures passed { IfOk result (λ stated. Adds section.old section.new (λ file. MethodsPass file stated outs.now)) }
{
    let mut all = List::new(alloc);
    for (number, method) in methods.iter().enumerate() {
        let stated = add_method(section, passed_by(outs, number), method)?;
        all.push(stated)?;
    }
    Ok(all)
}

/// Adds the items of a class, and answers its definition with their offsets.
fn add_class(
    alloc: Global,
    section: &mut Section,
    ids: &Ids,
    stated: &ClassRow,
    class: &RawClass,
    outs: &[u16],
) -> Result<ClassRow, Memory>
    ensures same { IfOk result (λ row. IsSameClass row stated.now) }
    ensures written { IfOk result (λ row. Adds section.old section.new (λ file. IsClassWritten file ids.now row class.now)) }
    ensures passed { IfOk result (λ row. Adds section.old section.new (λ file. ClassPasses file row class.now outs.now)) }
{
    small_class(class);
    let methods = add_methods(alloc, section, class.methods.as_slice(), outs)?;
    let members_at = section.add_members(&class.fields, methods.as_slice())?;
    let values_at = section.add_values(ids, &class.fields, &class.values)?;
    placed(stated, members_at, values_at)
}

/// A definition with the offsets of class data and values.
fn placed(stated: &ClassRow, members_at: u32, values_at: u32) -> Result<ClassRow, Memory>
    ensures same { IfOk result (λ row. IsSameClass row stated.now) }
    ensures members { IfOk result (λ row. row.members_at ≡ members_at) }
    ensures values { IfOk result (λ row. row.values_at ≡ values_at) }
{
    Ok(ClassRow {
        class: stated.class,
        flags: stated.flags,
        superclass: stated.superclass,
        interfaces: stated.interfaces.copy()?,
        members_at,
        values_at,
    })
}

/// Adds the items of the class of a number, where there is one, and answers its definition with their offsets.
fn add_numbered(
    alloc: Global,
    section: &mut Section,
    ids: &Ids,
    stated: &ClassRow,
    class: Option<&RawClass>,
    outs: &[u16],
) -> Result<ClassRow, Memory>
    ensures same { IfOk result (λ row. IsSameClass row stated.now) }
    ensures written { IfOk result (λ row. Adds section.old section.new (λ file. WhereGiven (IsClassWritten file ids.now row) (option_copied class.entry))) }
    ensures passed { IfOk result (λ row. Adds section.old section.new (λ file. WhereGiven (λ class. ClassPasses file row class outs.now) (option_copied class.entry))) }
{
    match class {
        Some(class) => add_class(alloc, section, ids, stated, class, outs),
        None => placed(stated, 0, 0),
    }
}

/// The most arguments that the code of each method of a class passes.
fn passed(outs: &Outs, number: usize) -> &[u16]
    ensures { (passed : List ℕ) → slice_get outs.now number ≡ Some passed → result.now ≡ passed }
{
    match outs.get(number) {
        Some(passed) => passed.as_slice(),
        None => &[],
    }
}

/// Adds the items of classes, one for each definition, and answers the definitions with their offsets.
pub fn add_classes(
    alloc: Global,
    section: &mut Section,
    ids: &Ids,
    definitions: &[ClassRow],
    classes: &RawClasses,
    outs: &Outs,
) -> Result<ClassRows, Memory>
    ensures same { IfOk result (λ rows. EachPair IsSameClass rows definitions.now) }
    ensures written { IfOk result (λ rows. Adds section.old section.new (λ file. AreFirstWritten file ids.now rows classes.now)) }
    ensures passed { IfOk result (λ rows. Adds section.old section.new (λ file. ClassesPass file rows classes.now outs.now)) }
{
    let mut rows = List::new(alloc);
    for (number, stated) in definitions.iter().enumerate() {
        let class = classes.get(number);
        let row = add_numbered(alloc, section, ids, stated, class, passed(outs, number))?;
        rows.push(row)?;
    }
    Ok(rows)
}
