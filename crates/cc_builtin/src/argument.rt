//! The methods of one parameter.

ghost use Rattle.std.specs.Prelude.{◌≡◌, [], ◌∷◌, ◌++◌, ◌+◌, ◌^◌, ◌<◌, ◌≤◌, ℕ, length, IfOk, OnErr};
ghost use Rattle.cc_meaning.specs.BuiltIn.{null_pointer_exception_name, string_index_out_of_bounds_exception_name};
ghost use Rattle.cc_meaning.specs.Order.{IsRisingByName};
ghost use Rattle.cc_meaning_builtin.specs.Acts.{Append, Tell, run_act};
ghost use Rattle.cc_meaning_builtin.specs.Calls.{equals_text, is_same, on_object, on_printed, on_text, returns_nothing, returns_object, throw_new, truth, unit_at, unit_or_throw, with_argument};
ghost use Rattle.cc_builtin.specs.Ends.{Ends, HasRoom};
ghost use Rattle.cc_builtin.specs.Parts.{is_text_at};

use crate::lookup::{null_pointer_exception, string_index_out_of_bounds_exception};
use crate::receiver::set_message;
use crate::steps::{LINE_FEED, UNFIT, append, tell, throw};
use crate::texts::{copy, printed, text};
use cc_heap::World;
use cc_meaning::fault::Memory;
use cc_meaning::lists::{ObjId, Units};
use cc_meaning::program::Program;
use cc_meaning::report::CallEnd;
use cc_meaning::value::Value;
use cc_meaning_builtin::builtin::{BuiltIn, Printed};
use std::alloc::Global;

/// Throws a new `NullPointerException`.
#[tactic(auto, using(crate::proofs::Ending::class_ends, crate::proofs::Ending::no_class_ends))]
pub(crate) fn throw_null_pointer(
    alloc: Global,
    program: &Program,
    world: &mut World,
) -> Result<CallEnd, Memory>
    requires few { length program.now.classes ≤ 2 ^ 32 }
    requires rising { IsRisingByName program.now.classes }
    requires room { HasRoom world.old }
    ensures ok { IfOk result (λ end. Ends (run_act (throw_new program.now null_pointer_exception_name) world.old.world) world.old end world.new) }
    ensures err { OnErr result (world.new ≡ world.old) }
{
    match null_pointer_exception(alloc, program)? {
        Some(class) => throw(alloc, world, class),
        None => Ok(UNFIT),
    }
}

/// Throws a new `StringIndexOutOfBoundsException`.
#[tactic(auto, using(crate::proofs::Ending::class_ends, crate::proofs::Ending::no_class_ends))]
fn throw_string_index(
    alloc: Global,
    program: &Program,
    world: &mut World,
) -> Result<CallEnd, Memory>
    requires few { length program.now.classes ≤ 2 ^ 32 }
    requires rising { IsRisingByName program.now.classes }
    requires room { HasRoom world.old }
    ensures ok { IfOk result (λ end. Ends (run_act (throw_new program.now string_index_out_of_bounds_exception_name) world.old.world) world.old end world.new) }
    ensures err { OnErr result (world.new ≡ world.old) }
{
    match string_index_out_of_bounds_exception(alloc, program)? {
        Some(class) => throw(alloc, world, class),
        None => Ok(UNFIT),
    }
}

/// A truth value as an int.
#[tactic(auto, unfolding(cc_meaning_builtin::specs::Calls::truth))]
fn int_of(holds: bool) -> Value
    ensures { result ≡ truth holds }
{
    if holds { Value::Int(1) } else { Value::Int(0) }
}

/// Whether a text equals another object, a text or not.
fn is_text(world: &World, units: &Units, other: Option<ObjId>) -> bool
    ensures { result ≡ is_text_at world.now.world.objects units.now other }
{
    let Some(other) = other else {
        return false;
    };
    match text(world, other) {
        Some(others) => units == others,
        None => false,
    }
}

fn is_equal_text(world: &World, id: ObjId, other: Option<ObjId>) -> CallEnd
    ensures { Ends (run_act (on_text id (λ units. equals_text units other)) world.now.world) world.now result world.now }
{
    let Some(units) = text(world, id) else {
        return UNFIT;
    };
    CallEnd::Returned(Some(int_of(is_text(world, units, other))))
}

#[tactic(auto, unfolding(cc_meaning_builtin::specs::Calls::unit_at))]
fn unit(units: &Units, index: i32) -> Option<u16>
    ensures { result ≡ unit_at units.now index }
{
    if index < 0 {
        return None;
    }
    units.get(index as usize).copied()
}

/// The unit of a text at a place.
fn char_at(
    alloc: Global,
    program: &Program,
    world: &mut World,
    id: ObjId,
    index: i32,
) -> Result<CallEnd, Memory>
    requires few { length program.now.classes ≤ 2 ^ 32 }
    requires rising { IsRisingByName program.now.classes }
    requires room { HasRoom world.old }
    ensures ok { IfOk result (λ end. Ends (run_act (on_text id (λ units. unit_or_throw program.now (unit_at units index))) world.old.world) world.old end world.new) }
    ensures err { OnErr result (world.new ≡ world.old) }
{
    let Some(units) = text(world, id) else {
        return Ok(UNFIT);
    };
    match unit(units, index) {
        Some(unit) => Ok(CallEnd::Returned(Some(Value::Int(i32::from(unit))))),
        None => throw_string_index(alloc, program, world),
    }
}

/// Gives a builder the units of a text.
fn append_text(alloc: Global, world: &mut World, id: ObjId, from: ObjId) -> Result<CallEnd, Memory>
    ensures ok { IfOk result (λ end. Ends (run_act (on_text from (λ units. Append id units returns_nothing)) world.old.world) world.old end world.new) }
    ensures err { OnErr result (world.new ≡ world.old) }
{
    let Some(units) = text(world, from) else {
        return Ok(UNFIT);
    };
    let more = copy(alloc, units.as_slice())?;
    append(alloc, world, id, more, None)
}

/// Gives a builder what is printed for a value.
fn append_printed(
    alloc: Global,
    world: &mut World,
    id: ObjId,
    form: Printed,
    value: Value,
) -> Result<CallEnd, Memory>
    ensures ok { IfOk result (λ end. Ends (run_act (on_printed form value (λ units. Append id units (returns_object id))) world.old.world) world.old end world.new) }
    ensures err { OnErr result (world.new ≡ world.old) }
{
    match printed(alloc, world, form, value)? {
        Some(units) => append(alloc, world, id, units, Some(Value::Obj(Some(id)))),
        None => Ok(UNFIT),
    }
}

/// Prints a value.
fn print(alloc: Global, world: &mut World, form: Printed, value: Value) -> Result<CallEnd, Memory>
    requires { length world.old.world.events + 1 < 2 ^ 32 }
    ensures ok { IfOk result (λ end. (method : ℕ) → Ends (run_act (on_printed form value (λ units. Tell method units returns_nothing)) world.old.world) world.old end world.new) }
    ensures err { OnErr result (world.new ≡ world.old) }
{
    match printed(alloc, world, form, value)? {
        Some(units) => tell(world, units),
        None => Ok(UNFIT),
    }
}

/// Prints a value and a line feed.
fn print_line(
    alloc: Global,
    world: &mut World,
    form: Printed,
    value: Value,
) -> Result<CallEnd, Memory>
    requires { length world.old.world.events + 1 < 2 ^ 32 }
    ensures ok { IfOk result (λ end. (method : ℕ) → Ends (run_act (on_printed form value (λ units. Tell method (units ++ 10 ∷ []) returns_nothing)) world.old.world) world.old end world.new) }
    ensures err { OnErr result (world.new ≡ world.old) }
{
    let Some(mut units) = printed(alloc, world, form, value)? else {
        return Ok(UNFIT);
    };
    units.push(LINE_FEED)?;
    tell(world, units)
}

/// Gives a builder the units of a text; null throws.
#[tactic(auto, unfolding(cc_meaning_builtin::specs::Calls::on_object, cc_meaning_builtin::specs::Calls::reference_of, cc_meaning_builtin::specs::Calls::on_some, cc_meaning_builtin::specs::Calls::on_object_or_null, cc_meaning_builtin::specs::Acts::run_act))]
fn construct_builder(
    alloc: Global,
    program: &Program,
    world: &mut World,
    id: ObjId,
    from: Value,
) -> Result<CallEnd, Memory>
    requires few { length program.now.classes ≤ 2 ^ 32 }
    requires rising { IsRisingByName program.now.classes }
    requires room { HasRoom world.old }
    ensures ok { IfOk result (λ end. Ends (run_act (on_object program.now from (λ text. on_text text (λ units. Append id units returns_nothing))) world.old.world) world.old end world.new) }
    ensures err { OnErr result (world.new ≡ world.old) }
{
    match from {
        Value::Obj(Some(text)) => append_text(alloc, world, id, text),
        Value::Obj(None) => throw_null_pointer(alloc, program, world),
        _ => Ok(UNFIT),
    }
}

/// What a method of one parameter does with its receiver and its argument.
#[tactic(auto, using(crate::proofs::Ending::any_method), unfolding(cc_meaning_builtin::specs::Calls::with_argument, cc_meaning_builtin::specs::Calls::returns, cc_meaning_builtin::specs::Calls::reference_of, cc_meaning_builtin::specs::Calls::int_of, cc_meaning_builtin::specs::Calls::on_some, cc_meaning_builtin::specs::Calls::is_same, cc_meaning_builtin::specs::Acts::run_act))]
pub(crate) fn call_with(
    alloc: Global,
    program: &Program,
    world: &mut World,
    does: BuiltIn,
    id: ObjId,
    value: Value,
) -> Result<CallEnd, Memory>
    requires few { length program.now.classes ≤ 2 ^ 32 }
    requires rising { IsRisingByName program.now.classes }
    requires room { HasRoom world.old }
    ensures ok { IfOk result (λ end. (method : ℕ) → Ends (run_act (with_argument program.now does method id value) world.old.world) world.old end world.new) }
    ensures err { OnErr result (world.new ≡ world.old) }
{
    match (does, value) {
        (BuiltIn::IsSameObject, Value::Obj(other)) => Ok(CallEnd::Returned(Some(int_of(is_same(
            id, other,
        ))))),
        (BuiltIn::ConstructThrowableWith, Value::Obj(text)) => set_message(alloc, world, id, text),
        (BuiltIn::CharAt, Value::Int(index)) => char_at(alloc, program, world, id, index),
        (BuiltIn::IsEqualText, Value::Obj(other)) => Ok(is_equal_text(world, id, other)),
        (BuiltIn::ConstructBuilder, from) => construct_builder(alloc, program, world, id, from),
        (BuiltIn::Append(form), value) => append_printed(alloc, world, id, form, value),
        (BuiltIn::Print(form), value) => print(alloc, world, form, value),
        (BuiltIn::PrintLine(form), value) => print_line(alloc, world, form, value),
        _ => Ok(UNFIT),
    }
}

/// Whether another reference is to the same object.
#[tactic(auto, unfolding(cc_meaning_builtin::specs::Calls::is_same))]
fn is_same(id: ObjId, other: Option<ObjId>) -> bool
    ensures { result ≡ is_same id other }
{
    match other {
        Some(other) => id == other,
        None => false,
    }
}
