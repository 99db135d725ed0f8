//! What is named, sorted by the table that its row stands in.

ghost use Rattle.std.specs.Prelude.{◌≡◌, ◌++◌, ◌∷◌, [], List, IfOk, OnOk};
ghost use Rattle.std.specs.List.{flat_map};
ghost use Rattle.cc_meaning.specs.declared.listing.RowName.{RowName as NameOfRow};
ghost use Rattle.cc_meaning_dex.specs.Classes.{EachPair};
ghost use Rattle.cc_tables.specs.Needs.{AreNeeds, IsMethodNamed, classes_in, fields_in, methods_in, texts_in};

use crate::split_prototype;
use cc_list::List;
use cc_meaning::fault::Memory;
use cc_meaning::listing::RowName;
use cc_meaning::lists::{Texts, Units};
use std::alloc::{AllocError, Global};

/// A field that is named: the descriptor of its class, its name, and the descriptor of its type.
#[derive(Drop)]
pub struct NamedField {
    pub class: Units,
    pub name: Units,
    pub kind: Units,
}

/// Fields that are named.
pub type NamedFields = List<NamedField>;

/// A method that is named: the descriptor of its class, its name, and the descriptors of its parameters and its result.
#[derive(Drop)]
pub struct NamedMethod {
    pub class: Units,
    pub name: Units,
    pub params: Texts,
    pub result: Units,
}

/// Methods that are named.
pub type NamedMethods = List<NamedMethod>;

/// What is named: texts, classes by their descriptors, fields and methods.
#[derive(Drop)]
pub struct Needs {
    pub texts: Texts,
    pub classes: Texts,
    pub fields: NamedFields,
    pub methods: NamedMethods,
}

/// Adds what a name says if it is a text.
fn add_text(all: &mut Texts, name: &RowName) -> Result<(), AllocError>
    ensures { OnOk result (all.new ≡ all.old ++ texts_in name.now) }
{
    match name {
        RowName::Text(units) => all.push(units.copy()?),
        _ => Ok(()),
    }
}

/// The texts that are named.
fn named_texts(alloc: Global, names: &[RowName]) -> Result<Texts, AllocError>
    ensures { IfOk result (λ all. all ≡ flat_map texts_in names.now) }
{
    let mut all = List::new(alloc);
    for name in names {
        add_text(&mut all, name)?;
    }
    Ok(all)
}

/// Adds what a name says if it is a class.
fn add_class(all: &mut Texts, name: &RowName) -> Result<(), AllocError>
    ensures { OnOk result (all.new ≡ all.old ++ classes_in name.now) }
{
    match name {
        RowName::Class(class) => all.push(class.copy()?),
        _ => Ok(()),
    }
}

/// The descriptors of the classes that are named.
fn named_classes(alloc: Global, names: &[RowName]) -> Result<Texts, AllocError>
    ensures { IfOk result (λ all. all ≡ flat_map classes_in names.now) }
{
    let mut all = List::new(alloc);
    for name in names {
        add_class(&mut all, name)?;
    }
    Ok(all)
}

/// Adds what a name says if it is a field.
fn add_field(all: &mut NamedFields, name: &RowName) -> Result<(), AllocError>
    ensures { OnOk result (all.new ≡ all.old ++ fields_in name.now) }
{
    match name {
        RowName::Field { class, name, kind } => all.push(NamedField {
            class: class.copy()?,
            name: name.copy()?,
            kind: kind.copy()?,
        }),
        _ => Ok(()),
    }
}

/// The fields that are named.
fn named_fields(alloc: Global, names: &[RowName]) -> Result<NamedFields, AllocError>
    ensures { IfOk result (λ all. all ≡ flat_map fields_in names.now) }
{
    let mut all = List::new(alloc);
    for name in names {
        add_field(&mut all, name)?;
    }
    Ok(all)
}

/// Adds what a name says if it is a method, with its prototype split.
#[tactic(auto, using(crate::proofs::Pairs::each_push))]
fn add_method(alloc: Global, all: &mut NamedMethods, name: &RowName) -> Result<(), Memory>
    ensures { OnOk result ((names : List NameOfRow) → EachPair IsMethodNamed names all.old → EachPair IsMethodNamed (names ++ methods_in name.now) all.new) }
{
    if let RowName::Method { class, name, proto } = name {
        let (params, result) = split_prototype(alloc, proto.as_slice())?;
        all.push(NamedMethod {
            class: class.copy()?,
            name: name.copy()?,
            params,
            result,
        })?;
    }
    Ok(())
}

/// The methods that are named.
fn named_methods(alloc: Global, names: &[RowName]) -> Result<NamedMethods, Memory>
    ensures { IfOk result (EachPair IsMethodNamed (flat_map methods_in names.now)) }
{
    let mut all = List::new(alloc);
    for name in names {
        add_method(alloc, &mut all, name)?;
    }
    Ok(all)
}

/// What these names name.
pub fn needs_of(alloc: Global, names: &[RowName]) -> Result<Needs, Memory>
    ensures { IfOk result (AreNeeds names.now) }
{
    Ok(Needs {
        texts: named_texts(alloc, names)?,
        classes: named_classes(alloc, names)?,
        fields: named_fields(alloc, names)?,
        methods: named_methods(alloc, names)?,
    })
}
