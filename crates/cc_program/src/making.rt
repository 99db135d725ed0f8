//! Classes, made one by one.

ghost use Rattle.std.specs.Prelude.{◌≡◌, ◌<◌, ◌^◌, ℕ, List, Option, true, Some, None, length, slice_get, slice_set, IfOk};
ghost use Rattle.cc_meaning.specs.declared.program.Class.{Class};
ghost use Rattle.cc_meaning_program.specs.declared.outline.Outline.{Outline};
ghost use Rattle.cc_meaning_program.specs.Programs.{has_class_flag};
ghost use Rattle.cc_program.specs.Layouts.{Stands, AreRight, own_fields, AreOwnFields, IsLayout, HasHeights};
ghost use Rattle.cc_program.specs.Made.{stated_at, values_at, TextsAre, IsMade, AreMade};

use crate::class_fields::own_fields;
use crate::initialisers::initialisers;
use crate::layouts::layouts;
use crate::values::values;
use cc_list::List;
use cc_meaning::file::{Ids, RawClasses};
use cc_meaning::lists::{FieldIx, FieldList, MethodIx, Rows, Texts};
use cc_meaning::program::{Class, Classes, Fields, Methods, StaticValue};
use cc_meaning_program::{FieldPlans, Outline, Outlines};
use std::alloc::{AllocError, Global};

/// What a program's classes are made from: the tables and the classes of a file, the names of the program's classes, its fields with what they are made
/// from, its methods, and for each row of texts the number of its text.
#[derive(Clone, Copy)]
pub struct Parts<'a> {
    pub ids: &'a Ids,
    pub raw: &'a RawClasses,
    pub names: &'a Texts,
    pub plans: &'a FieldPlans,
    pub fields: &'a Fields,
    pub methods: &'a Methods,
    pub texts: &'a Rows,
}

/// Takes the layout of a class.
pub(crate) fn take_layout(layouts: &mut List<Option<FieldList>>, class: usize) -> FieldList
    requires { Stands layouts.old class }
    ensures taken { slice_get layouts.old class ≡ Some (Some result) }
    ensures others { layouts.new ≡ slice_set layouts.old class None }
{
    match layouts.replace(class, None) {
        Some(fields) => fields,
        None => unreachable!(),
    }
}

/// Whether a definition has a flag.
#[tactic(auto, unfolding(crate::specs::Made::stated_at, cc_meaning_program::specs::Programs::has_class_flag))]
fn has_flag(ids: &Ids, definition: Option<u32>, flag: u32) -> bool
    ensures { result ≡ has_class_flag flag (stated_at ids.now definition) }
{
    let Some(number) = definition else {
        return false;
    };
    match ids.classes.get(number as usize) {
        Some(stated) => stated.flags & flag != 0,
        None => false,
    }
}

/// The values that a definition lists.
#[tactic(auto, unfolding(crate::specs::Made::values_at, crate::specs::Made::values_in))]
fn values_at(raw: &RawClasses, definition: Option<u32>) -> &[StaticValue]
    ensures { result.now ≡ values_at raw.now definition }
{
    let Some(number) = definition else {
        return &[];
    };
    match raw.get(number as usize) {
        Some(class) => class.values.as_slice(),
        None => &[],
    }
}

/// The class of a number, by its outline.
fn class(
    alloc: Global,
    parts: &Parts<'_>,
    number: usize,
    outline: Outline,
    layout: FieldList,
    initialiser: Option<MethodIx>,
    statics: &[FieldIx],
) -> Result<Class, AllocError>
    requires there { number < length parts.now.names.now }
    requires texts { TextsAre parts.now.raw.now parts.now.texts.now outline.definition }
    requires statics { statics.now ≡ own_fields true parts.now.fields.now number }
    ensures { IfOk result (λ class. (outlines : List Outline) (own : List (List ℕ)) (begun : List (Option ℕ)) →
        slice_get outlines number ≡ Some outline → IsLayout outlines own number layout → slice_get begun number ≡ Some initialiser →
        IsMade parts.now.ids.now parts.now.raw.now parts.now.names.now outlines parts.now.plans.now parts.now.fields.now parts.now.texts.now own begun number class) }
{
    let values = values(
        alloc,
        parts.fields.as_slice(),
        parts.plans.as_slice(),
        values_at(parts.raw, outline.definition),
        parts.texts.as_slice(),
        statics,
    )?;
    Ok(Class {
        name: parts.names.at(number).copy()?,
        kind: outline.kind,
        superclass: outline.superclass,
        interfaces: outline.interfaces,
        is_interface: has_flag(parts.ids, outline.definition, 512),
        is_abstract: has_flag(parts.ids, outline.definition, 1024),
        layout,
        initialiser,
        values,
    })
}

/// Classes one by one, by their outlines, layouts, initialisers and static fields.
fn one_by_one(
    alloc: Global,
    parts: &Parts<'_>,
    outlines: Outlines,
    mut layouts: List<Option<FieldList>>,
    begun: &[Option<MethodIx>],
    statics: &[FieldList],
) -> Result<Classes, AllocError>
    requires all { length outlines ≡ length parts.now.names.now }
    requires texts { (number : ℕ) (outline : Outline) → slice_get outlines number ≡ Some outline → TextsAre parts.now.raw.now parts.now.texts.now outline.definition }
    requires stand { (class : ℕ) → class < length outlines → Stands layouts class }
    requires begun { length begun.now ≡ length outlines }
    requires statics { AreOwnFields true parts.now.fields.now (length outlines) statics.now }
    ensures all { IfOk result (λ classes. length classes ≡ length outlines) }
    ensures each { IfOk result (λ classes. (own : List (List ℕ)) → AreRight outlines own layouts → (number : ℕ) (class : Class) → slice_get classes number ≡ Some class →
        IsMade parts.now.ids.now parts.now.raw.now parts.now.names.now outlines parts.now.plans.now parts.now.fields.now parts.now.texts.now own begun.now number class) }
{
    let mut classes = Classes::new(alloc);
    for outline in outlines {
        let number = classes.len();
        let layout = take_layout(&mut layouts, number);
        let fields = statics[number].as_slice();
        classes.push(class(alloc, parts, number, outline, layout, begun[number], fields)?)?;
    }
    Ok(classes)
}

/// All classes, by their outlines.
pub(crate) fn made(
    alloc: Global,
    parts: &Parts<'_>,
    outlines: Outlines,
) -> Result<Classes, AllocError>
    requires few { length parts.now.names.now < 2 ^ 32 }
    requires few_fields { length parts.now.fields.now < 2 ^ 32 }
    requires few_methods { length parts.now.methods.now < 2 ^ 32 }
    requires all { length outlines ≡ length parts.now.names.now }
    requires heights { HasHeights outlines }
    requires texts { (number : ℕ) (outline : Outline) → slice_get outlines number ≡ Some outline → TextsAre parts.now.raw.now parts.now.texts.now outline.definition }
    ensures { IfOk result (AreMade parts.now.ids.now parts.now.raw.now parts.now.names.now outlines parts.now.plans.now parts.now.fields.now parts.now.methods.now parts.now.texts.now) }
{
    let count = outlines.len();
    let fields = parts.fields.as_slice();
    let own = own_fields(alloc, count, fields, false)?;
    let statics = own_fields(alloc, count, fields, true)?;
    let begun = initialisers(alloc, count, parts.methods.as_slice())?;
    let layouts = layouts(alloc, outlines.as_slice(), own.as_slice())?;
    one_by_one(
        alloc,
        parts,
        outlines,
        layouts,
        begun.as_slice(),
        statics.as_slice(),
    )
}
