//! The members that a script lists, looked up in a program.

ghost use Rattle.std.specs.Prelude.{◌≡◌, ◌+◌, ◌^◌, ◌<◌, ◌≤◌, ◌++◌, codes, ℕ, List, length, map, unwrap_or, option_map, slice_get, false, IfOk};
ghost use Rattle.cc_meaning.specs.declared.program.Method.{Method};
ghost use Rattle.cc_meaning.specs.Names.{method_name};
ghost use Rattle.cc_meaning.specs.Order.{IsRisingByName, MethodsRise};
ghost use Rattle.cc_meaning_script.specs.Listed.{capped};
ghost use Rattle.cc_meaning_script.specs.Script.{scripted_named, if_scripted, method_at, given_at, methods_from, givens_from, class_members, class_at, classes_at, result_of};
ghost use Rattle.cc_script.specs.Gives.{Gives};
ghost use Rattle.cc_units.specs.Units.{units_of};

use crate::answers::{answer_for, class_listed};
use crate::classes::place_of;
use crate::names::name_place;
use cc_list::List;
use cc_meaning::fault::ScriptFault;
use cc_meaning::lists::{ClassIx, MethodIx, MethodList, Units};
use cc_meaning::program::{DexType, MethodKind, Program};
use cc_meaning::script::{Given, GivenList, ScriptClass, ScriptClasses};
use cc_meaning::text::Text;
use cc_meaning_script::listed::{ListedAnswer, ListedClass};
use cc_program_names::add_ascii;
use cc_units::{add_text, units_of};
use std::alloc::{AllocError, Global};

/// The method of a number, where it is outside or native.
fn if_scripted(program: &Program, method: MethodIx) -> Option<MethodIx>
    ensures { result ≡ if_scripted method (slice_get program.now.methods method) }
{
    match program.methods.get(method as usize)?.kind {
        MethodKind::Native | MethodKind::Outside => Some(method),
        _ => None,
    }
}

fn result_of(program: &Program, method: MethodIx) -> Option<DexType>
    ensures { result ≡ result_of program.now method }
{
    match program.methods.get(method as usize) {
        Some(method) => method.result,
        None => None,
    }
}

/// A member's name as printed, with its class.
fn full_name(alloc: Global, class: &Text, member: &Text) -> Result<Units, AllocError>
    ensures { IfOk result (λ name. name ≡ units_of class.now ++ codes "->" ++ units_of member.now) }
{
    let mut name = units_of(alloc, class.as_str())?;
    add_ascii(&mut name, b"->")?;
    add_text(&mut name, member.as_str())?;
    Ok(name)
}

/// The outside or native method of a class's name and a member's. `names` are those of the program's methods.
#[tactic(auto, using(crate::proofs::Members::scripted_is, crate::proofs::Members::no_name, crate::proofs::Members::rising_names))]
fn scripted(
    alloc: Global,
    program: &Program,
    names: &[Units],
    class: &Text,
    member: &Text,
) -> Result<Option<MethodIx>, AllocError>
    requires named { names.now ≡ map (method_name program.now) program.now.methods }
    requires methods { length program.now.methods ≤ 2 ^ 32 }
    requires rising { MethodsRise program.now }
    ensures { IfOk result (λ method. method ≡ scripted_named program.now class.now member.now) }
{
    let name = full_name(alloc, class, member)?;
    match name_place(names, name.as_slice()) {
        Some(at) => Ok(if_scripted(program, at as u32)),
        None => Ok(None),
    }
}

/// The place of what stands `at` behind `start`.
#[tactic(auto, using(crate::proofs::Places::sum_capped))]
fn place_behind(start: usize, at: usize) -> u32
    ensures { result ≡ capped (start + at) }
{
    place_of(start.saturating_add(at))
}

/// The method of the member at a place of a class, which are told so where there is none.
#[tactic(auto, using(crate::proofs::Resolving::no_method, crate::proofs::Resolving::some_method))]
fn method_at(
    alloc: Global,
    program: &Program,
    names: &[Units],
    class: &Text,
    told: (u32, u32),
    member: &Text,
) -> Result<MethodIx, ScriptFault>
    requires named { names.now ≡ map (method_name program.now) program.now.methods }
    requires methods { length program.now.methods ≤ 2 ^ 32 }
    requires rising { MethodsRise program.now }
    ensures { (number place : ℕ) → told.0 ≡ capped number → told.1 ≡ capped place → Gives (method_at program.now class.now number place member.now) result }
{
    match scripted(alloc, program, names, class, member)? {
        Some(method) => Ok(method),
        None => Err(ScriptFault::UnknownMethod {
            class: told.0,
            place: told.1,
        }),
    }
}

/// The method and the answer of the pair at a place of a class.
#[tactic(auto, using(crate::proofs::Resolving::given_fault, crate::proofs::Resolving::no_answer, crate::proofs::Resolving::some_answer))]
fn given_at(
    alloc: Global,
    program: &Program,
    names: &[Units],
    class: &Text,
    told: (u32, u32),
    pair: &ListedAnswer,
) -> Result<Given, ScriptFault>
    requires named { names.now ≡ map (method_name program.now) program.now.methods }
    requires methods { length program.now.methods ≤ 2 ^ 32 }
    requires rising { MethodsRise program.now }
    requires few { length program.now.classes ≤ 2 ^ 32 }
    requires classes { IsRisingByName program.now.classes }
    ensures { (number place : ℕ) → told.0 ≡ capped number → told.1 ≡ capped place → Gives (given_at program.now class.now number place pair.now) result }
{
    let method = match method_at(alloc, program, names, class, told, &pair.member) {
        Ok(method) => method,
        Err(fault) => return Err(fault),
    };
    match answer_for(alloc, program, result_of(program, method), &pair.answer)? {
        Some(answer) => Ok(Given { method, answer }),
        None => Err(ScriptFault::BadAnswer {
            class: told.0,
            place: told.1,
        }),
    }
}

/// The methods of the first members of a class.
fn methods_of(
    alloc: Global,
    program: &Program,
    names: &[Units],
    class: &Text,
    number: u32,
    members: &[Text],
) -> Result<MethodList, ScriptFault>
    requires named { names.now ≡ map (method_name program.now) program.now.methods }
    requires methods { length program.now.methods ≤ 2 ^ 32 }
    requires rising { MethodsRise program.now }
    ensures { (n : ℕ) → number ≡ capped n → Gives (methods_from program.now class.now n 0 members.now) result }
{
    let mut methods = List::new(alloc);
    for (at, member) in members.iter().enumerate() {
        match method_at(
            alloc,
            program,
            names,
            class,
            (number, place_behind(0, at)),
            member,
        ) {
            Ok(method) => methods.push(method)?,
            Err(fault) => return Err(fault),
        }
    }
    Ok(methods)
}

/// The methods and answers of pairs, which stand from a place of a class on.
fn givens_of(
    alloc: Global,
    program: &Program,
    names: &[Units],
    class: &Text,
    from: (u32, usize),
    pairs: &[ListedAnswer],
) -> Result<GivenList, ScriptFault>
    requires named { names.now ≡ map (method_name program.now) program.now.methods }
    requires methods { length program.now.methods ≤ 2 ^ 32 }
    requires rising { MethodsRise program.now }
    requires few { length program.now.classes ≤ 2 ^ 32 }
    requires classes { IsRisingByName program.now.classes }
    ensures { (number start : ℕ) → from.0 ≡ capped number → ((at : ℕ) → capped (from.1 + at) ≡ capped (start + at)) → Gives (givens_from program.now class.now number start pairs.now) result }
{
    let mut givens = List::new(alloc);
    for (at, pair) in pairs.iter().enumerate() {
        match given_at(
            alloc,
            program,
            names,
            class,
            (from.0, place_behind(from.1, at)),
            pair,
        ) {
            Ok(given) => givens.push(given)?,
            Err(fault) => return Err(fault),
        }
    }
    Ok(givens)
}

/// What is listed of a class's members.
fn class_members(
    alloc: Global,
    program: &Program,
    names: &[Units],
    number: u32,
    class: ClassIx,
    listed: &ListedClass,
) -> Result<ScriptClass, ScriptFault>
    requires named { names.now ≡ map (method_name program.now) program.now.methods }
    requires methods { length program.now.methods ≤ 2 ^ 32 }
    requires rising { MethodsRise program.now }
    requires few { length program.now.classes ≤ 2 ^ 32 }
    requires classes { IsRisingByName program.now.classes }
    ensures { (n : ℕ) → number ≡ capped n → Gives (class_members program.now n class listed.now) result }
{
    let name = &listed.name;
    let unpinned = match methods_of(
        alloc,
        program,
        names,
        name,
        number,
        listed.unpinned.as_slice(),
    ) {
        Ok(methods) => methods,
        Err(fault) => return Err(fault),
    };
    let start = listed.unpinned.len();
    let free = match givens_of(
        alloc,
        program,
        names,
        name,
        (number, start),
        listed.free.as_slice(),
    ) {
        Ok(givens) => givens,
        Err(fault) => return Err(fault),
    };
    let start = start.saturating_add(listed.free.len());
    let answers = match givens_of(
        alloc,
        program,
        names,
        name,
        (number, start),
        listed.answers.as_slice(),
    ) {
        Ok(givens) => givens,
        Err(fault) => return Err(fault),
    };
    Ok(ScriptClass {
        class,
        unpinned,
        free,
        answers,
    })
}

/// The class at a place of a script.
fn class_at(
    alloc: Global,
    program: &Program,
    names: &[Units],
    number: usize,
    listed: &ListedClass,
) -> Result<ScriptClass, ScriptFault>
    requires named { names.now ≡ map (method_name program.now) program.now.methods }
    requires methods { length program.now.methods ≤ 2 ^ 32 }
    requires rising { MethodsRise program.now }
    requires few { length program.now.classes ≤ 2 ^ 32 }
    requires classes { IsRisingByName program.now.classes }
    ensures { Gives (class_at program.now number listed.now) result }
{
    match class_listed(alloc, program, &listed.name)? {
        Some(class) => class_members(alloc, program, names, place_of(number), class, listed),
        None => Err(ScriptFault::UnknownMethod {
            class: place_of(number),
            place: 0,
        }),
    }
}

/// The classes of a script.
pub(crate) fn classes_at(
    alloc: Global,
    program: &Program,
    names: &[Units],
    classes: &[ListedClass],
) -> Result<ScriptClasses, ScriptFault>
    requires named { names.now ≡ map (method_name program.now) program.now.methods }
    requires methods { length program.now.methods ≤ 2 ^ 32 }
    requires rising { MethodsRise program.now }
    requires few { length program.now.classes ≤ 2 ^ 32 }
    requires classes { IsRisingByName program.now.classes }
    ensures { Gives (classes_at program.now classes.now) result }
{
    let mut found = List::new(alloc);
    for (number, listed) in classes.iter().enumerate() {
        match class_at(alloc, program, names, number, listed) {
            Ok(class) => found.push(class)?,
            Err(fault) => return Err(fault),
        }
    }
    Ok(found)
}
