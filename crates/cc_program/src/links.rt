//! What the rows of a file are in its program, and what the program's members are made from.

ghost use Rattle.std.specs.Prelude.{◌≡◌, ◌<◌, ◌^◌, ℕ, List, length, Contains, IfOk};
ghost use Rattle.cc_meaning.specs.declared.program.Placed.{Placed};
ghost use Rattle.cc_meaning_program.specs.BodyFaults.{HaveSoundBodies};
ghost use Rattle.cc_meaning_program.specs.ClassFaults.{AreSound};
ghost use Rattle.cc_meaning_program.specs.ClassNames.{AreClassNames, AreTexts};
ghost use Rattle.cc_meaning_program.specs.declared.uses.MethodUse.{MethodUse};
ghost use Rattle.cc_meaning_program.specs.Outlines.{AreOutlines};
ghost use Rattle.cc_meaning_program.specs.Plans.{AreMethodPlans, AreFieldPlans, method_plan_name, field_plan_name};
ghost use Rattle.cc_meaning_program.specs.Rows.{FitTables, FitClasses};
ghost use Rattle.cc_meaning_program.specs.Uses.{AreUses};
ghost use Rattle.cc_bodies.specs.Bodies.{AreBodies};
ghost use Rattle.cc_members.specs.Linked.{AreMethodLinks, AreFieldLinks};
ghost use Rattle.cc_program.specs.Linking.{IsOutlined, IsLinked, MethodsLinked, FieldsLinked};

use cc_bodies::{Bodies, member_uses, used_rows_are_there};
use cc_list::List;
use cc_meaning::fault::Memory;
use cc_meaning::file::{Ids, RawClasses};
use cc_meaning::lists::{FieldIx, Rows, Texts};
use cc_meaning_program::{FieldPlans, Links, MethodLink, MethodPlans, MethodUses, Outlines};
use cc_members::{field_links, field_plans, method_links, method_plans};
use cc_names::{numbers_of_texts, types_of_rows};
use cc_owners::{field_owners, method_owners};
use std::alloc::Global;

/// What a program's members are made from, and what the rows of its file are in it.
#[derive(Drop)]
pub struct Linked {
    pub methods: MethodPlans,
    pub fields: FieldPlans,
    pub links: Links,
}

/// The methods of a program, and what rows of methods are among them.
#[derive(Drop)]
struct LinkedMethods {
    plans: MethodPlans,
    links: List<Option<MethodLink>>,
}

/// The fields of a program, and what rows of fields are among them.
#[derive(Drop)]
struct LinkedFields {
    plans: FieldPlans,
    links: List<Option<FieldIx>>,
}

/// A file whose classes are known by their numbers.
#[derive(Clone, Copy)]
pub struct Outlined<'a> {
    pub ids: &'a Ids,
    pub classes: &'a RawClasses,
    pub names: &'a Texts,
    pub outlines: &'a Outlines,
}

fn link_methods(
    alloc: Global,
    file: &Outlined<'_>,
    uses: &MethodUses,
) -> Result<LinkedMethods, Memory>
    requires outlined { IsOutlined file.now.ids.now file.now.classes.now file.now.names.now file.now.outlines.now }
    requires uses { (fields : List ℕ) × AreUses file.now.classes.now uses.now fields }
    requires rows { (used : MethodUse) → Contains uses.now used → used.row < length file.now.ids.now.methods }
    ensures { IfOk result (MethodsLinked file.now.ids.now file.now.classes.now file.now.names.now uses.now) }
{
    let Outlined {
        ids,
        classes,
        names,
        outlines,
    } = *file;
    let owners = method_owners(alloc, ids, classes, names, outlines)?;
    let plans = method_plans(alloc, ids, classes, names, outlines, &owners, uses)?;
    let links = method_links(alloc, ids, classes, names, outlines, &owners, &plans, uses)?;
    Ok(LinkedMethods { plans, links })
}

fn link_fields(alloc: Global, file: &Outlined<'_>, uses: &Rows) -> Result<LinkedFields, Memory>
    requires outlined { IsOutlined file.now.ids.now file.now.classes.now file.now.names.now file.now.outlines.now }
    requires uses { (methods : List MethodUse) × AreUses file.now.classes.now methods uses.now }
    requires rows { (row : ℕ) → Contains uses.now row → row < length file.now.ids.now.fields }
    ensures { IfOk result (FieldsLinked file.now.ids.now file.now.classes.now file.now.names.now uses.now) }
{
    let Outlined {
        ids,
        classes,
        names,
        outlines,
    } = *file;
    let owners = field_owners(alloc, ids, classes, names, outlines)?;
    let plans = field_plans(alloc, ids, classes, names, outlines, &owners, uses)?;
    let links = field_links(alloc, ids, classes, names, outlines, &owners, &plans, uses)?;
    Ok(LinkedFields { plans, links })
}

/// What the members of a file's program are made from, and what its rows are in it.
pub fn link_file(
    alloc: Global,
    file: &Outlined<'_>,
    texts: &Texts,
    bodies: &Bodies,
) -> Result<Linked, Memory>
    requires outlined { IsOutlined file.now.ids.now file.now.classes.now file.now.names.now file.now.outlines.now }
    requires texts { AreTexts file.now.ids.now texts.now }
    requires few { length texts.now < 2 ^ 32 }
    requires sound { HaveSoundBodies file.now.ids.now file.now.classes.now }
    requires bodies { AreBodies file.now.classes.now bodies.now }
    ensures { IfOk result (IsLinked file.now.ids.now file.now.classes.now file.now.names.now texts.now) }
{
    used_rows_are_there();
    let uses = member_uses(alloc, bodies)?;
    let methods = link_methods(alloc, file, &uses.methods)?;
    let fields = link_fields(alloc, file, &uses.fields)?;
    let links = Links {
        texts: numbers_of_texts(alloc, file.ids, texts)?,
        types: types_of_rows(alloc, file.ids, file.names)?,
        methods: methods.links,
        fields: fields.links,
    };
    Ok(Linked {
        methods: methods.plans,
        fields: fields.plans,
        links,
    })
}
