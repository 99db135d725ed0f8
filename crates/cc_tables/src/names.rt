//! The names of all rows that were asked for.

ghost use Rattle.std.specs.Prelude.{◌≡◌, ◌++◌, map, IfOk, OnOk};
ghost use Rattle.std.specs.List.{flat_map};
ghost use Rattle.cc_meaning.specs.declared.listing.RowName.TheVariants as row;
ghost use Rattle.cc_meaning_builder.specs.Named.{all_names, catch_names, class_names, code_names, field_names, listed_names, method_names, try_names, value_names};

use cc_list::List;
use cc_meaning::listing::{ListedCatch, ListedTry, ListedValue, Listing, Mark, RowName};
use cc_meaning::lists::Units;
use cc_meaning_builder::content::{ListedClass, ListedField, ListedMethod};
use std::alloc::{AllocError, Global};

/// The names of rows.
pub type RowNames = List<RowName>;

/// The same name once more.
fn copy_of(name: &RowName) -> Result<RowName, AllocError>
    ensures { IfOk result (λ copy. copy ≡ name.now) }
{
    Ok(match name {
        RowName::Text(units) => RowName::Text(units.copy()?),
        RowName::Class(class) => RowName::Class(class.copy()?),
        RowName::Field { class, name, kind } => RowName::Field {
            class: class.copy()?,
            name: name.copy()?,
            kind: kind.copy()?,
        },
        RowName::Method { class, name, proto } => RowName::Method {
            class: class.copy()?,
            name: name.copy()?,
            proto: proto.copy()?,
        },
    })
}

/// Adds a class where there is one.
fn add_class(all: &mut RowNames, class: &Option<Units>) -> Result<(), AllocError>
    ensures { OnOk result (all.new ≡ all.old ++ class_names class.now) }
{
    if let Some(name) = class {
        all.push(RowName::Class(name.copy()?))?;
    }
    Ok(())
}

/// Adds the classes that handlers take.
fn add_catches(all: &mut RowNames, catches: &[ListedCatch]) -> Result<(), AllocError>
    ensures { OnOk result (all.new ≡ all.old ++ flat_map catch_names catches.now) }
{
    for catch in catches {
        add_class(all, &catch.class)?;
    }
    Ok(())
}

/// Adds the classes that the handlers of tries take.
fn add_tries(all: &mut RowNames, tries: &[ListedTry]) -> Result<(), AllocError>
    ensures { OnOk result (all.new ≡ all.old ++ flat_map try_names tries.now) }
{
    for entry in tries {
        add_catches(all, entry.catches.as_slice())?;
    }
    Ok(())
}

/// Adds what the instructions of a code name.
fn add_marks(all: &mut RowNames, marks: &[Mark]) -> Result<(), AllocError>
    ensures { OnOk result (all.new ≡ all.old ++ map (λ mark. mark.row) marks.now) }
{
    for mark in marks {
        all.push(copy_of(&mark.row)?)?;
    }
    Ok(())
}

/// Adds what a code names.
fn add_code(all: &mut RowNames, code: &Option<Listing>) -> Result<(), AllocError>
    ensures { OnOk result (all.new ≡ all.old ++ code_names code.now) }
{
    if let Some(listing) = code {
        add_marks(all, listing.marks.as_slice())?;
        add_tries(all, listing.tries.as_slice())?;
    }
    Ok(())
}

/// Adds the text that a field begins with, where it does.
fn add_value(all: &mut RowNames, value: &Option<ListedValue>) -> Result<(), AllocError>
    ensures { OnOk result (all.new ≡ all.old ++ value_names value.now) }
{
    match value {
        Some(ListedValue::Text(units)) => all.push(RowName::Text(units.copy()?)),
        _ => Ok(()),
    }
}

/// Adds a field of a class, and the text that it begins with.
fn add_field(all: &mut RowNames, class: &Units, field: &ListedField) -> Result<(), AllocError>
    ensures { OnOk result (all.new ≡ all.old ++ field_names class.now field.now) }
{
    all.push(RowName::Field {
        class: class.copy()?,
        name: field.name.copy()?,
        kind: field.kind.copy()?,
    })?;
    add_value(all, &field.value)
}

/// Adds the fields of a class.
fn add_fields(all: &mut RowNames, class: &Units, fields: &[ListedField]) -> Result<(), AllocError>
    ensures { OnOk result (all.new ≡ all.old ++ flat_map (field_names class.now) fields.now) }
{
    for field in fields {
        add_field(all, class, field)?;
    }
    Ok(())
}

/// Adds a method of a class, and what its code names.
fn add_method(all: &mut RowNames, class: &Units, method: &ListedMethod) -> Result<(), AllocError>
    ensures { OnOk result (all.new ≡ all.old ++ method_names class.now method.now) }
{
    all.push(RowName::Method {
        class: class.copy()?,
        name: method.name.copy()?,
        proto: method.proto.copy()?,
    })?;
    add_code(all, &method.code)
}

/// Adds the methods of a class.
fn add_methods(
    all: &mut RowNames,
    class: &Units,
    methods: &[ListedMethod],
) -> Result<(), AllocError>
    ensures { OnOk result (all.new ≡ all.old ++ flat_map (method_names class.now) methods.now) }
{
    for method in methods {
        add_method(all, class, method)?;
    }
    Ok(())
}

/// Adds the interfaces of a class.
fn add_interfaces(all: &mut RowNames, interfaces: &[Units]) -> Result<(), AllocError>
    ensures { OnOk result (all.new ≡ all.old ++ map row.Class interfaces.now) }
{
    for interface in interfaces {
        all.push(RowName::Class(interface.copy()?))?;
    }
    Ok(())
}

/// Adds a class, those above it, and what its members name.
fn add_listed(all: &mut RowNames, class: &ListedClass) -> Result<(), AllocError>
    ensures { OnOk result (all.new ≡ all.old ++ listed_names class.now) }
{
    all.push(RowName::Class(class.name.copy()?))?;
    add_class(all, &class.superclass)?;
    add_interfaces(all, class.interfaces.as_slice())?;
    add_fields(all, &class.name, class.fields.as_slice())?;
    add_methods(all, &class.name, class.methods.as_slice())
}

/// All that these classes name, one behind the other.
pub fn names_in(alloc: Global, content: &[ListedClass]) -> Result<RowNames, AllocError>
    ensures { IfOk result (λ names. names ≡ all_names content.now) }
{
    let mut all = List::new(alloc);
    for class in content {
        add_listed(&mut all, class)?;
    }
    Ok(all)
}
