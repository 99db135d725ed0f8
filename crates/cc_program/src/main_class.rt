//! The class whose `main` a program begins with.

ghost use Rattle.std.specs.Prelude.{◌≡◌, ℕ, length, MatchOption};
ghost use Rattle.std.specs.Bool.{Decides};
ghost use Rattle.std.specs.Option.{option_copied};
ghost use Rattle.cc_program.specs.Mains.{IsRunnable, IsMainAt, IsMainOf, IsWanted, NoMainBefore, IsMainSource, IsMainPlan};

use crate::matching::is_member;
use cc_meaning::file::{Ids, RawClass, RawClasses, RawMethod};
use cc_meaning::lists::ClassIx;
use cc_meaning_program::{MethodPlan, MethodPlans, MethodSource};
use cc_names::type_name;

/// The name of a main method within its class.
const MAIN: &[u8] = b"main([Ljava/lang/String;)V";

/// A method that is static has this flag.
const STATIC: u32 = 8;

/// A main method: its class, by the number of the definition, and its place among the methods of that.
#[derive(Clone, Copy)]
pub struct MainMethod {
    pub definition: usize,
    pub place: usize,
}

/// Whether a method is static and has code.
fn is_runnable(method: &RawMethod) -> bool
    ensures { Decides result (IsRunnable method.now) }
{
    method.flags & STATIC != 0 && method.code.is_some()
}

/// The place of a class's static `main` with code, where its first method of that name is one.
fn main_of(ids: &Ids, class: &RawClass) -> Option<usize>
    ensures { MatchOption result ((place : ℕ) → ¬ IsMainAt ids.now class.now place) (IsMainAt ids.now class.now) }
{
    let methods = class.methods.as_slice();
    for place in 0..methods.len() {
        let method = &methods[place];
        if is_member(ids, method.row, MAIN) {
            return if is_runnable(method) {
                Some(place)
            } else {
                None
            };
        }
    }
    None
}

/// Whether the class of a name is wanted.
fn is_wanted(asked: Option<&[u16]>, name: &[u16]) -> bool
    ensures { Decides result (IsWanted (option_copied asked.entry) name.now) }
{
    match asked {
        Some(asked) => asked == name,
        None => true,
    }
}

/// The main method of a definition, where that is of a wanted class and has one.
fn main_of_definition(
    ids: &Ids,
    classes: &RawClasses,
    asked: Option<&[u16]>,
    number: usize,
) -> Option<usize>
    ensures { MatchOption result ((place : ℕ) → ¬ IsMainOf ids.now classes.now (option_copied asked.entry) number place) (IsMainOf ids.now classes.now (option_copied asked.entry) number) }
{
    let stated = ids.classes.get(number)?;
    let class = classes.get(number)?;
    if is_wanted(asked, type_name(ids, stated.class)) {
        main_of(ids, class)
    } else {
        None
    }
}

/// The first main method of a wanted class, in the file's order.
pub fn find_main(ids: &Ids, classes: &RawClasses, asked: Option<&[u16]>) -> Option<MainMethod>
    ensures { MatchOption result (NoMainBefore ids.now classes.now (option_copied asked.entry) (length ids.now.classes)) (λ found. IsMainOf ids.now classes.now (option_copied asked.entry) found.definition found.place × NoMainBefore ids.now classes.now (option_copied asked.entry) found.definition) }
{
    for definition in 0..ids.classes.len() {
        if let Some(place) = main_of_definition(ids, classes, asked, definition) {
            return Some(MainMethod { definition, place });
        }
    }
    None
}

/// Whether a method of a class comes from one that the class defines with the name of a main method.
fn is_main_source(ids: &Ids, class: &RawClass, source: MethodSource) -> bool
    ensures { Decides result (IsMainSource ids.now class.now source) }
{
    match source {
        MethodSource::File { place } => match class.methods.get(place as usize) {
            Some(method) => is_member(ids, method.row, MAIN),
            None => false,
        },
        MethodSource::BuiltIn { .. } | MethodSource::Outside { .. } => false,
    }
}

/// Whether a plan is of a class and comes so.
fn is_main_plan(ids: &Ids, class: &RawClass, owner: ClassIx, plan: &MethodPlan) -> bool
    ensures { Decides result ((plan.now.owner ≡ owner) × IsMainSource ids.now class.now plan.now.source) }
{
    plan.owner == owner && is_main_source(ids, class, plan.source)
}

/// The number of the main method of a class, which is planned.
pub fn main_number(ids: &Ids, class: &RawClass, owner: ClassIx, plans: &MethodPlans) -> usize
    requires { (number : ℕ) × IsMainPlan ids.now class.now owner plans.now number }
    ensures { IsMainPlan ids.now class.now owner plans.now result }
{
    let planned = plans.as_slice();
    for number in 0..planned.len() {
        let plan = &planned[number];
        if is_main_plan(ids, class, owner, plan) {
            return number;
        }
    }
    unreachable!()
}
