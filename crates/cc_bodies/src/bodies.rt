//! The members and the code of a file's classes: judged and decoded in the file's order, up to the first fault.

ghost use Rattle.std.specs.Prelude.{◌≡◌, ◌≢◌, ◌<◌, ◌^◌, length, IfOk, IfErr, OnOk};
ghost use Rattle.cc_meaning_program.specs.Named.{method_text};
ghost use Rattle.cc_meaning_program.specs.Instructions.{AreInstructions};
ghost use Rattle.cc_meaning_program.specs.BodyFaults.{NoneHas, FirstHas, FieldFault, MethodFault, InsnFaulty, CatchFaulty, TryFaulty, CodeFaulty, MethodFaulty, ClassFaulty, IsBodyFault, HaveSoundBodies};
ghost use Rattle.cc_bodies.specs.Judged.{Judges, Reads, JudgesEach, ReadsEach, ReferenceFaulty};
ghost use Rattle.cc_bodies.specs.Floats.{AreFloatRows};
ghost use Rattle.cc_meaning_program.specs.CodeSizes.{HasFewUnits, MethodsHaveFewUnits, HaveFewUnits};
ghost use Rattle.cc_bodies.specs.Bodies.{IsBody, AreClassBodies, AreBodies};

use crate::floats::{FloatRows, field_floats, float_rows, method_floats, type_floats};
use crate::names::{field_text, method_text, type_name};
use crate::reading::instructions;
use crate::references::{floats, is_missing, reference_name, reference_of};
use cc_list::List;
use cc_meaning::fault::ProgramFault;
use cc_meaning::file::{Ids, RawCatch, RawClass, RawClasses, RawCode, RawField, RawMethod, RawTry};
use cc_meaning::lists::Units;
use cc_meaning::program::{Insns, Placed};
use cc_meaning_program::{Reference, sound_code, stand_to_end};
use std::alloc::Global;

/// The instructions of each of a class's methods, `None` where it has no code.
pub type ClassBodies = List<Option<Insns>>;

/// Those of each of a file's classes.
pub type Bodies = List<ClassBodies>;

/// Judges a row that the instruction at `at` of a method names.
fn judge_reference(
    alloc: Global,
    ids: &Ids,
    rows: &FloatRows,
    method: u32,
    at: u32,
    named: Reference,
) -> Result<(), ProgramFault>
    requires { AreFloatRows ids.now rows.now }
    ensures { Judges (ReferenceFaulty ids.now (method_text ids.now method) at named) result }
{
    if is_missing(ids, named) {
        let method = method_text(alloc, ids, method)?;
        return Err(ProgramFault::BadIndex { method, pc: at });
    }
    if floats(ids, rows, named) {
        let name = reference_name(alloc, ids, named)?;
        return Err(ProgramFault::FloatMember { name });
    }
    Ok(())
}

/// Judges an instruction of a method.
fn judge_insn(
    alloc: Global,
    ids: &Ids,
    rows: &FloatRows,
    method: u32,
    placed: &Placed,
) -> Result<(), ProgramFault>
    requires { AreFloatRows ids.now rows.now }
    ensures { Judges (InsnFaulty ids.now (method_text ids.now method) placed.now) result }
{
    match reference_of(&placed.insn) {
        Some(named) => judge_reference(alloc, ids, rows, method, placed.at, named),
        None => Ok(()),
    }
}

/// Judges the instructions of a method, up to the first with a fault.
fn judge_insns(
    alloc: Global,
    ids: &Ids,
    rows: &FloatRows,
    method: u32,
    insns: &[Placed],
) -> Result<(), ProgramFault>
    requires { AreFloatRows ids.now rows.now }
    ensures { JudgesEach (InsnFaulty ids.now (method_text ids.now method)) insns.now result }
{
    for placed in insns {
        judge_insn(alloc, ids, rows, method, placed)?;
    }
    Ok(())
}

/// Judges a handler.
fn judge_catch(
    alloc: Global,
    ids: &Ids,
    rows: &FloatRows,
    catch: &RawCatch,
) -> Result<(), ProgramFault>
    requires { AreFloatRows ids.now rows.now }
    ensures { Judges (CatchFaulty ids.now catch.now) result }
{
    let Some(row) = catch.row else {
        return Ok(());
    };
    if type_floats(rows, row) {
        let name = Units::from_slice(alloc, type_name(ids, row))?;
        return Err(ProgramFault::FloatMember { name });
    }
    Ok(())
}

/// Judges the handlers of a try, up to the first with a fault.
fn judge_try(
    alloc: Global,
    ids: &Ids,
    rows: &FloatRows,
    catches: &[RawCatch],
) -> Result<(), ProgramFault>
    requires { AreFloatRows ids.now rows.now }
    ensures { JudgesEach (CatchFaulty ids.now) catches.now result }
{
    for catch in catches {
        judge_catch(alloc, ids, rows, catch)?;
    }
    Ok(())
}

/// Judges the tries of a code, up to the first with a fault.
fn judge_tries(
    alloc: Global,
    ids: &Ids,
    rows: &FloatRows,
    tries: &[RawTry],
) -> Result<(), ProgramFault>
    requires { AreFloatRows ids.now rows.now }
    ensures { JudgesEach (TryFaulty ids.now) tries.now result }
{
    for stated in tries {
        judge_try(alloc, ids, rows, stated.catches.as_slice())?;
    }
    Ok(())
}

/// Reads the instructions of a code, which is that of the method of this row. Those before the place where they break off are judged first.
fn read_code(
    alloc: Global,
    ids: &Ids,
    rows: &FloatRows,
    method: u32,
    code: &RawCode,
) -> Result<Insns, ProgramFault>
    requires rows { AreFloatRows ids.now rows.now }
    requires units { length code.now.units < 2 ^ 32 }
    ensures { Reads (AreInstructions code.now.units) (CodeFaulty ids.now (method_text ids.now method) code.now) result }
{
    sound_code();
    stand_to_end();
    let reading = instructions(alloc, code.units.as_slice())?;
    judge_insns(alloc, ids, rows, method, reading.insns.as_slice())?;
    if let Some(broken) = reading.broken {
        let method = method_text(alloc, ids, method)?;
        return Err(ProgramFault::Insn {
            method,
            pc: broken.at,
            fault: broken.fault,
        });
    }
    judge_tries(alloc, ids, rows, code.tries.as_slice())?;
    Ok(reading.insns)
}

/// Reads the instructions of a method.
fn read_body(
    alloc: Global,
    ids: &Ids,
    rows: &FloatRows,
    method: &RawMethod,
) -> Result<Option<Insns>, ProgramFault>
    requires rows { AreFloatRows ids.now rows.now }
    requires units { HasFewUnits method.now }
    ensures { Reads (IsBody method.now.code) (MethodFaulty ids.now method.now) result }
{
    match &method.code {
        Some(code) => Ok(Some(read_code(alloc, ids, rows, method.row, code)?)),
        None => Ok(None),
    }
}

/// Reads the instructions of a class's methods, up to the first with a fault.
fn read_methods(
    alloc: Global,
    ids: &Ids,
    rows: &FloatRows,
    methods: &[RawMethod],
) -> Result<ClassBodies, ProgramFault>
    requires rows { AreFloatRows ids.now rows.now }
    requires units { MethodsHaveFewUnits methods.now }
    ensures { ReadsEach (λ method body. IsBody method.code body) (MethodFaulty ids.now) methods.now result }
{
    let mut bodies = List::new(alloc);
    for method in methods {
        bodies.push(read_body(alloc, ids, rows, method)?)?;
    }
    Ok(bodies)
}

/// Judges the fields of a class, up to the first of floating point.
fn judge_fields(
    alloc: Global,
    ids: &Ids,
    rows: &FloatRows,
    fields: &[RawField],
) -> Result<(), ProgramFault>
    requires { AreFloatRows ids.now rows.now }
    ensures { JudgesEach (FieldFault ids.now) fields.now result }
{
    for field in fields {
        if field_floats(ids, rows, field.row) {
            let name = field_text(alloc, ids, field.row)?;
            return Err(ProgramFault::FloatMember { name });
        }
    }
    Ok(())
}

/// Judges the methods of a class by their names, up to the first of floating point.
fn judge_methods(
    alloc: Global,
    ids: &Ids,
    rows: &FloatRows,
    methods: &[RawMethod],
) -> Result<(), ProgramFault>
    requires { AreFloatRows ids.now rows.now }
    ensures { JudgesEach (MethodFault ids.now) methods.now result }
{
    for method in methods {
        if method_floats(ids, rows, method.row) {
            let name = method_text(alloc, ids, method.row)?;
            return Err(ProgramFault::FloatMember { name });
        }
    }
    Ok(())
}

/// Reads the instructions of a class's methods, behind its members.
fn read_class(
    alloc: Global,
    ids: &Ids,
    rows: &FloatRows,
    class: &RawClass,
) -> Result<ClassBodies, ProgramFault>
    requires rows { AreFloatRows ids.now rows.now }
    requires units { MethodsHaveFewUnits class.now.methods }
    ensures { Reads (AreClassBodies class.now.methods) (ClassFaulty ids.now class.now) result }
{
    judge_fields(alloc, ids, rows, class.fields.as_slice())?;
    judge_methods(alloc, ids, rows, class.methods.as_slice())?;
    read_methods(alloc, ids, rows, class.methods.as_slice())
}

fn read_classes(
    alloc: Global,
    ids: &Ids,
    rows: &FloatRows,
    classes: &[RawClass],
) -> Result<Bodies, ProgramFault>
    requires rows { AreFloatRows ids.now rows.now }
    requires units { HaveFewUnits classes.now }
    ensures { ReadsEach (λ class of_class. AreClassBodies class.methods of_class) (ClassFaulty ids.now) classes.now result }
{
    let mut bodies = List::new(alloc);
    for class in classes {
        bodies.push(read_class(alloc, ids, rows, class)?)?;
    }
    Ok(bodies)
}

/// The instructions of the methods of a file's classes, with the rows of the file as they stand in the code.
///
/// # Errors
///
/// The first fault, class by class in the file's order: `FloatMember` for the first field and then the first method of the class whose own class, type,
/// parameters or result are of floating point, by its whole name. Then method by method: for each instruction `BadIndex` where it names a row that isn't
/// there or the type V, and `FloatMember` where it names a member or a type of floating point, by that one's name; `Insn` where the units are no
/// instruction; and behind the instructions `FloatMember` for a handler's type. At any time `Memory`: there is no memory.
///
/// Source: Dalvik Executable format, section code_item; Dalvik bytecode, section Summary of bytecode set.
pub fn read_bodies(alloc: Global, ids: &Ids, classes: &RawClasses) -> Result<Bodies, ProgramFault>
    requires { HaveFewUnits classes.now }
    ensures sound { OnOk result (HaveSoundBodies ids.now classes.now) }
    ensures read { IfOk result (AreBodies classes.now) }
    ensures fault { IfErr result (λ fault. fault ≢ ProgramFault.Memory → IsBodyFault ids.now classes.now fault) }
{
    let rows = float_rows(alloc, ids)?;
    read_classes(alloc, ids, &rows, classes.as_slice())
}
