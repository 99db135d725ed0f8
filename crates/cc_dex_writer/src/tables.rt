//! What the rows of tables name in the data section, and copies of tables.

ghost use Rattle.std.specs.Prelude.{◌≡◌, ◌++◌, ◌^◌, ◌<◌, length, map, IfOk, OnOk};
ghost use Rattle.cc_meaning.specs.Order.{IsRising};
ghost use Rattle.cc_meaning_dex.specs.Classes.{EachPair};
ghost use Rattle.cc_meaning_dex.specs.Texts.{SpellsText};
ghost use Rattle.cc_meaning_program.specs.Named.{type_name};
ghost use Rattle.cc_meaning_builder.specs.Tables.{short_form, short_letter};
ghost use Rattle.cc_dex_writer.specs.Items.{InterfacesStand, IsShortOf, ParamsStand};
ghost use Rattle.cc_dex_writer.specs.Section.{Adds};

use crate::section::Section;
use cc_list::List;
use cc_meaning::fault::Memory;
use cc_meaning::file::{ClassRow, ClassRows, Ids, ProtoRow, ProtoRows};
use cc_meaning::lists::{Rows, Texts, Units};
use cc_names::{find, type_name};
use std::alloc::Global;

/// `[`, which begins an array's descriptor.
const ARRAY: u16 = 91;

/// `L`, which begins a class's descriptor.
const CLASS: u16 = 76;

/// Adds each text, and answers where they stand.
pub fn add_texts(alloc: Global, section: &mut Section, texts: &[Units]) -> Result<Rows, Memory>
    ensures { IfOk result (λ offsets. Adds section.old section.new (λ file. EachPair (SpellsText file) offsets texts.now)) }
{
    let mut offsets = List::new(alloc);
    for units in texts {
        let at = section.add_text(units.as_slice())?;
        offsets.push(at)?;
    }
    Ok(offsets)
}

/// Adds the parameters of each prototype, and answers where they stand.
pub fn add_params(alloc: Global, section: &mut Section, protos: &[ProtoRow]) -> Result<Rows, Memory>
    ensures { IfOk result (λ offsets. Adds section.old section.new (λ file. EachPair (ParamsStand file) offsets protos.now)) }
{
    let mut offsets = List::new(alloc);
    for proto in protos {
        let at = section.add_types(proto.params.as_slice())?;
        offsets.push(at)?;
    }
    Ok(offsets)
}

/// Adds the interfaces of each class, and answers where they stand.
pub fn add_interfaces(
    alloc: Global,
    section: &mut Section,
    classes: &[ClassRow],
) -> Result<Rows, Memory>
    ensures { IfOk result (λ offsets. Adds section.old section.new (λ file. EachPair (InterfacesStand file) offsets classes.now)) }
{
    let mut offsets = List::new(alloc);
    for class in classes {
        let at = section.add_types(class.interfaces.as_slice())?;
        offsets.push(at)?;
    }
    Ok(offsets)
}

/// The letter of a type in a short form: its first, and that of a class for an array.
/// Source: Dalvik Executable format, section ShortyDescriptor.
fn short_letter(name: &[u16]) -> u16
    ensures { result ≡ short_letter name.now }
{
    match name {
        [ARRAY, ..] => CLASS,
        [first, ..] => *first,
        [] => 0,
    }
}

/// Adds a letter for each of these rows of types.
fn add_letters(short: &mut Units, ids: &Ids, rows: &[u32]) -> Result<(), Memory>
    ensures { OnOk result (short.new ≡ short.old ++ map (λ type. short_letter (type_name ids.now type)) rows.now) }
{
    for row in rows {
        let letter = short_letter(type_name(ids, *row));
        short.push(letter)?;
    }
    Ok(())
}

/// The short form of a prototype: a letter for its result and for each of its parameters.
/// Source: Dalvik Executable format, section ShortyDescriptor.
fn short_form(alloc: Global, ids: &Ids, proto: &ProtoRow) -> Result<Units, Memory>
    ensures { IfOk result (λ short. short ≡ short_form ids.now proto.now) }
{
    let mut short = List::new(alloc);
    short.push(short_letter(type_name(ids, proto.result)))?;
    add_letters(&mut short, ids, proto.params.as_slice())?;
    Ok(short)
}

/// The row of the text of a prototype's short form, and 0 where no text is it.
fn short_row(alloc: Global, ids: &Ids, proto: &ProtoRow) -> Result<u32, Memory>
    requires few { length ids.now.texts < 2 ^ 32 }
    requires rise { IsRising ids.now.texts }
    ensures { IfOk result (λ row. IsShortOf ids.now row proto.now) }
{
    let short = short_form(alloc, ids, proto)?;
    let row = find(&ids.texts, short.as_slice());
    Ok(row.unwrap_or(0))
}

/// The rows of the texts of prototypes' short forms.
pub fn short_rows(alloc: Global, ids: &Ids, protos: &[ProtoRow]) -> Result<Rows, Memory>
    requires few { length ids.now.texts < 2 ^ 32 }
    requires rise { IsRising ids.now.texts }
    ensures { IfOk result (λ rows. EachPair (IsShortOf ids.now) rows protos.now) }
{
    let mut rows = List::new(alloc);
    for proto in protos {
        let row = short_row(alloc, ids, proto)?;
        rows.push(row)?;
    }
    Ok(rows)
}

fn copy_texts(alloc: Global, texts: &[Units]) -> Result<Texts, Memory>
    ensures { IfOk result (λ copy. copy ≡ texts.now) }
{
    let mut copy = List::new(alloc);
    for units in texts {
        copy.push(units.copy()?)?;
    }
    Ok(copy)
}

fn copy_proto(proto: &ProtoRow) -> Result<ProtoRow, Memory>
    ensures { IfOk result (λ copy. copy ≡ proto.now) }
{
    Ok(ProtoRow {
        result: proto.result,
        params: proto.params.copy()?,
    })
}

fn copy_protos(alloc: Global, protos: &[ProtoRow]) -> Result<ProtoRows, Memory>
    ensures { IfOk result (λ copy. copy ≡ protos.now) }
{
    let mut copy = List::new(alloc);
    for proto in protos {
        copy.push(copy_proto(proto)?)?;
    }
    Ok(copy)
}

/// The same tables with other definitions of classes.
pub fn with_classes(alloc: Global, ids: &Ids, classes: ClassRows) -> Result<Ids, Memory>
    ensures { IfOk result (λ written. written ≡ record ids.now { classes = classes }) }
{
    Ok(Ids {
        texts: copy_texts(alloc, ids.texts.as_slice())?,
        types: ids.types.copy()?,
        protos: copy_protos(alloc, ids.protos.as_slice())?,
        fields: ids.fields.copy()?,
        methods: ids.methods.copy()?,
        classes,
    })
}
