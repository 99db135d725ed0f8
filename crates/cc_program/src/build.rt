//! The program of a file's tables and classes.

ghost use Rattle.std.specs.Prelude.{◌≡◌, ◌≢◌, ◌<◌, ◌≤◌, ◌^◌, ℕ, List, Option, Some, length, slice_get, IfOk, IfErr};
ghost use Rattle.std.specs.Option.{option_copied};
ghost use Rattle.cc_meaning.specs.declared.file.ClassRow.{ClassRow};
ghost use Rattle.cc_meaning.specs.declared.program.Program.{Program};
ghost use Rattle.cc_meaning_program.specs.BodyFaults.{HaveSoundBodies};
ghost use Rattle.cc_meaning_program.specs.ClassFaults.{AreSound};
ghost use Rattle.cc_meaning_program.specs.ClassNames.{AreClassNames, AreTexts};
ghost use Rattle.cc_meaning_program.specs.CodeSizes.{HaveFewUnits};
ghost use Rattle.cc_meaning_program.specs.Named.{type_name};
ghost use Rattle.cc_meaning_program.specs.Programs.{IsProgram, IsMainClass};
ghost use Rattle.cc_meaning_program.specs.declared.uses.MethodUse.{MethodUse};
ghost use Rattle.cc_meaning_program.specs.Plans.{AreMethodPlans};
ghost use Rattle.cc_meaning_program.specs.Rows.{FitTables, FitClasses};
ghost use Rattle.cc_meaning_typing.specs.WellFormed.{IsWellFormed};
ghost use Rattle.cc_bodies.specs.Bodies.{AreBodies};
ghost use Rattle.cc_meaning_program.specs.Asked.{asked_class};
ghost use Rattle.cc_meaning_program.specs.Faults.{IsProgramFault};
ghost use Rattle.cc_program.specs.Linking.{IsOutlined, IsLinked};
ghost use Rattle.cc_program.specs.Mains.{IsMainOf, IsMainNumber};

use crate::asked::units_of;
use crate::links::{Outlined, link_file};
use crate::main_class::{MainMethod, find_main, main_number};
use crate::{Parts, classes};
use cc_bodies::{Bodies, read_bodies};
use cc_hierarchy::{judge_classes, outlines};
use cc_meaning::fault::{Memory, ProgramFault};
use cc_meaning::file::{Ids, RawClasses};
use cc_meaning::lists::{ClassIx, MethodIx, Texts, Units};
use cc_meaning::program::Program;
use cc_meaning_dex::descriptors_agree;
use cc_meaning_program::MethodPlans;
use cc_members::{fields, methods};
use cc_names::{class_names, find, texts, type_name};
use cc_program_laws::programs_are_well_formed;
use std::alloc::Global;

/// The most things that numbers of 32 bits count. There is no memory for more.
const MOST: usize = u32::MAX as usize;

/// The names of a program's classes, which numbers of 32 bits count.
fn numbered_names(alloc: Global, ids: &Ids) -> Result<Texts, Memory>
    ensures names { IfOk result (AreClassNames ids.now) }
    ensures few { IfOk result (λ names. length names < 2 ^ 32) }
{
    let names = class_names(alloc, ids)?;
    if names.len() > MOST {
        return Err(Memory);
    }
    Ok(names)
}

/// The number of the class of a definition.
fn class_of(ids: &Ids, names: &Texts, definition: usize) -> ClassIx
    requires tables { FitTables ids.now }
    requires names { AreClassNames ids.now names.now }
    requires few { length names.now < 2 ^ 32 }
    requires there { definition < length ids.now.classes }
    ensures { (stated : ClassRow) → slice_get ids.now.classes definition ≡ Some stated → slice_get names.now result ≡ Some (type_name ids.now stated.class) }
{
    let stated = &ids.classes.as_slice()[definition];
    match find(names, type_name(ids, stated.class)) {
        Some(number) => number,
        None => unreachable!(),
    }
}

/// The number of the main method of a program.
fn main_in(
    ids: &Ids,
    raw: &RawClasses,
    names: &Texts,
    plans: &MethodPlans,
    main: MainMethod,
) -> Result<MethodIx, Memory>
    requires tables { FitTables ids.now }
    requires names { AreClassNames ids.now names.now }
    requires few { length names.now < 2 ^ 32 }
    requires sound { AreSound ids.now raw.now }
    requires main { (asked : Option (List ℕ)) × IsMainOf ids.now raw.now asked main.definition main.place }
    requires planned { (uses : List MethodUse) × AreMethodPlans ids.now raw.now names.now uses plans.now }
    ensures { IfOk result (IsMainNumber ids.now raw.now names.now plans.now main.definition) }
{
    descriptors_agree();
    if plans.len() > MOST {
        return Err(Memory);
    }
    let owner = class_of(ids, names, main.definition);
    let class = &raw.as_slice()[main.definition];
    Ok(main_number(ids, class, owner, plans) as u32)
}

/// The program of a file without faults in its classes and their code.
fn program_of(
    alloc: Global,
    ids: &Ids,
    raw: &RawClasses,
    asked: Option<&[u16]>,
    bodies: Bodies,
) -> Result<Program, ProgramFault>
    requires tables { FitTables ids.now }
    requires members { FitClasses ids.now raw.now }
    requires sound { AreSound ids.now raw.now }
    requires sound_bodies { HaveSoundBodies ids.now raw.now }
    requires bodies { AreBodies raw.now bodies }
    requires few_texts { length ids.now.texts < 2 ^ 32 }
    requires few_classes { length ids.now.classes < 2 ^ 32 }
    ensures program { IfOk result (IsProgram ids.now raw.now (option_copied asked.entry)) }
    ensures few { IfOk result (λ program. length program.classes ≤ 2 ^ 32) }
    ensures fault { IfErr result (λ fault. fault ≢ ProgramFault.Memory → (fault ≡ ProgramFault.NoMain) × ((class : List ℕ) → ¬ IsMainClass ids.now raw.now (option_copied asked.entry) class)) }
{
    descriptors_agree();
    let Some(main) = find_main(ids, raw, asked) else {
        return Err(ProgramFault::NoMain);
    };
    let names = numbered_names(alloc, ids)?;
    let texts = texts(alloc, ids)?;
    let outlines = outlines(alloc, ids, &names)?;
    let file = Outlined {
        ids,
        classes: raw,
        names: &names,
        outlines: &outlines,
    };
    let linked = link_file(alloc, &file, &texts, &bodies)?;
    let (plans, links) = (&linked.methods, &linked.links);
    let main = main_in(ids, raw, &names, plans, main)?;
    let fields = fields(alloc, ids, raw, &names, &outlines, links, &linked.fields)?;
    let methods = methods(alloc, ids, raw, &names, &outlines, links, plans, bodies)?;
    let parts = Parts {
        ids,
        raw,
        names: &names,
        plans: &linked.fields,
        fields: &fields,
        methods: &methods,
        texts: &links.texts,
    };
    let classes = classes(alloc, &parts, outlines)?;
    Ok(Program {
        classes,
        methods,
        fields,
        texts,
        main,
    })
}

/// The main class that is asked for, as units.
fn asked_units(alloc: Global, main: Option<&str>) -> Result<Option<Units>, Memory>
    ensures { IfOk result (λ asked. asked ≡ asked_class (option_copied main.entry)) }
{
    match main {
        Some(text) => Ok(Some(units_of(alloc, text)?)),
        None => Ok(None),
    }
}

/// A name, borrowed.
fn as_name(asked: &Option<Units>) -> Option<&[u16]>
    ensures { option_copied result ≡ asked.now }
{
    match asked {
        Some(name) => Some(name.as_slice()),
        None => None,
    }
}

/// The program of a file's tables and classes, with this main class, or with the first that has a main method.
///
/// # Errors
///
/// The first fault. `Duplicate`, `NoSuperclass`, `HierarchyCycle`: of the classes, in this order. Then, in the file's order, of members and code:
/// `FloatMember`, `BadIndex`, `Insn`. `NoMain`: no class has the main method that is asked for. At any time `Memory`: there is no memory, as there is
/// none for more classes or members than numbers of 32 bits count.
///
/// Source: Dalvik Executable format, sections class_def_item, field_id_item and method_id_item.
pub fn build_program(
    alloc: Global,
    ids: &Ids,
    raw: &RawClasses,
    main: Option<&str>,
) -> Result<Program, ProgramFault>
    requires tables { FitTables ids.now }
    requires members { FitClasses ids.now raw.now }
    requires units { HaveFewUnits raw.now }
    ensures program { IfOk result (IsProgram ids.now raw.now (asked_class (option_copied main.entry))) }
    ensures sound { IfOk result (λ program. AreSound ids.now raw.now × HaveSoundBodies ids.now raw.now) }
    ensures well_formed { IfOk result IsWellFormed }
    ensures fault { IfErr result (λ fault. fault ≢ ProgramFault.Memory → IsProgramFault ids.now raw.now (asked_class (option_copied main.entry)) fault) }
{
    programs_are_well_formed();
    if ids.texts.len() > MOST || ids.classes.len() > MOST {
        return Err(ProgramFault::Memory);
    }
    judge_classes(alloc, ids, raw)?;
    let bodies = read_bodies(alloc, ids, raw)?;
    let asked = asked_units(alloc, main)?;
    program_of(alloc, ids, raw, as_name(&asked), bodies)
}
