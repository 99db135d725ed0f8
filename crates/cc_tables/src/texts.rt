//! The texts that rows need, and their table.

ghost use Rattle.std.specs.Prelude.{◌≡◌, ◌++◌, ◌∷◌, [], ◌≤◌, ◌<◌, ◌^◌, ℕ, List, Contains, length, map, IfOk, OnOk};
ghost use Rattle.std.specs.List.{flat_map};
ghost use Rattle.cc_meaning_builder.specs.Tables.{short_letter};
ghost use Rattle.cc_tables.specs.Needs.{descriptors_of, field_texts, field_types, method_texts, method_types, short_of, texts_of};
ghost use Rattle.cc_tables.specs.Made.{IsTextTable};

use crate::needs::{NamedField, NamedMethod, Needs};
use cc_list::List;
use cc_meaning::fault::Memory;
use cc_meaning::file::Ids;
use cc_meaning::lists::{Texts, Units};
use std::alloc::{AllocError, Global};

/// `[`, which begins an array's descriptor.
const ARRAY: u16 = 91;

/// `L`, which begins a class's descriptor.
const CLASS: u16 = 76;

/// Adds texts.
fn add_texts(all: &mut Texts, texts: &[Units]) -> Result<(), AllocError>
    ensures { OnOk result (all.new ≡ all.old ++ texts.now) }
{
    for text in texts {
        all.push(text.copy()?)?;
    }
    Ok(())
}

/// Adds the descriptors of a field's class and type.
fn add_field_types(all: &mut Texts, fields: &[NamedField]) -> Result<(), AllocError>
    ensures { OnOk result (all.new ≡ all.old ++ flat_map field_types fields.now) }
{
    for field in fields {
        all.push(field.class.copy()?)?;
        all.push(field.kind.copy()?)?;
    }
    Ok(())
}

/// Adds the descriptors of a method's class, result and parameters.
fn add_method_types(all: &mut Texts, methods: &[NamedMethod]) -> Result<(), AllocError>
    ensures { OnOk result (all.new ≡ all.old ++ flat_map method_types methods.now) }
{
    for method in methods {
        all.push(method.class.copy()?)?;
        all.push(method.result.copy()?)?;
        add_texts(all, method.params.as_slice())?;
    }
    Ok(())
}

/// The descriptors of all types that rows need.
pub fn descriptors_of(alloc: Global, needs: &Needs) -> Result<Texts, AllocError>
    ensures { IfOk result (λ all. all ≡ descriptors_of needs.now) }
{
    let mut all = List::new(alloc);
    add_texts(&mut all, needs.classes.as_slice())?;
    add_field_types(&mut all, needs.fields.as_slice())?;
    add_method_types(&mut all, needs.methods.as_slice())?;
    Ok(all)
}

/// The letter that stands for a type in a short form: that of a class for arrays, and 0 for an empty name.
/// Source: Dalvik Executable format, section ShortyDescriptor.
fn short_letter(name: &[u16]) -> u16
    ensures { result ≡ short_letter name.now }
{
    match name {
        [] => 0,
        [ARRAY, ..] => CLASS,
        [first, ..] => *first,
    }
}

/// The short form of a method's prototype: its result and its parameters, a letter each.
/// Source: Dalvik Executable format, section ShortyDescriptor.
fn short_of(alloc: Global, method: &NamedMethod) -> Result<Units, AllocError>
    ensures { IfOk result (λ short. short ≡ short_of method.now) }
{
    let mut short = List::new(alloc);
    short.push(short_letter(method.result.as_slice()))?;
    for param in method.params.as_slice() {
        short.push(short_letter(param.as_slice()))?;
    }
    Ok(short)
}

/// Adds the names of fields.
fn add_field_texts(all: &mut Texts, fields: &[NamedField]) -> Result<(), AllocError>
    ensures { OnOk result (all.new ≡ all.old ++ flat_map field_texts fields.now) }
{
    for field in fields {
        all.push(field.name.copy()?)?;
    }
    Ok(())
}

/// Adds the names of methods, and the short forms of their prototypes.
fn add_method_texts(
    alloc: Global,
    all: &mut Texts,
    methods: &[NamedMethod],
) -> Result<(), AllocError>
    ensures { OnOk result (all.new ≡ all.old ++ flat_map method_texts methods.now) }
{
    for method in methods {
        all.push(method.name.copy()?)?;
        all.push(short_of(alloc, method)?)?;
    }
    Ok(())
}

/// All texts that rows need.
fn texts_of(alloc: Global, needs: &Needs) -> Result<Texts, AllocError>
    ensures { IfOk result (λ all. all ≡ texts_of needs.now) }
{
    let mut all = List::new(alloc);
    add_texts(&mut all, needs.texts.as_slice())?;
    add_texts(&mut all, descriptors_of(alloc, needs)?.as_slice())?;
    add_field_texts(&mut all, needs.fields.as_slice())?;
    add_method_texts(alloc, &mut all, needs.methods.as_slice())?;
    Ok(all)
}

/// Tables of no rows but these texts.
pub fn only_texts(alloc: Global, texts: Texts) -> Ids
    ensures { result ≡ record { texts = texts; types = []; protos = []; fields = []; methods = []; classes = [] } }
{
    Ids {
        texts,
        types: List::new(alloc),
        protos: List::new(alloc),
        fields: List::new(alloc),
        methods: List::new(alloc),
        classes: List::new(alloc),
    }
}

/// The table of texts: all that rows need, each once, in the order of their units. So many texts that 32 bits don't number them are refused.
///
/// Source: Dalvik Executable format, section string_id_item.
pub fn text_table(alloc: Global, needs: &Needs) -> Result<Texts, Memory>
    ensures table { IfOk result (IsTextTable (texts_of needs.now)) }
    ensures few { IfOk result (λ texts. length texts < 2 ^ 32) }
    ensures all_few { OnOk result (length (texts_of needs.now) < 2 ^ 32) }
{
    let all = texts_of(alloc, needs)?;
    // a row's number has 32 bits
    u32::try_from(all.len()).map_err(|_| Memory)?;
    let given = only_texts(alloc, all);
    cc_names::texts(alloc, &given)
}
