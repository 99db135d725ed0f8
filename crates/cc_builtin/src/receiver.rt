//! The methods without parameters.

ghost use Rattle.std.specs.Prelude.{◌≡◌, [], ◌∷◌, ◌+◌, ◌^◌, ◌<◌, ℕ, length, slice_get, option_and_then, option_map, IfOk, IfSome, OnErr};
ghost use Rattle.cc_meaning.specs.Words.{words_of};
ghost use Rattle.cc_meaning_builtin.specs.Acts.{Look, Make, Put, Tell, run_act, with_field};
ghost use Rattle.cc_meaning_builtin.specs.Calls.{alone, builder_of, copy_of, message_of, length_of, on_some, on_text, returns, returns_nothing, returns_object};
ghost use Rattle.cc_builtin.specs.Ends.{Ends, HasRoom};
ghost use Rattle.cc_builtin.specs.Parts.{copy_at, message_at};

use crate::steps::{LINE_FEED, UNFIT, give, tell};
use crate::texts::{builder, copy, text};
use cc_heap::World;
use cc_list::List;
use cc_meaning::fault::Memory;
use cc_meaning::lists::ObjId;
use cc_meaning::report::CallEnd;
use cc_meaning::value::{Object, Value};
use cc_meaning_builtin::builtin::BuiltIn;
use std::alloc::{AllocError, Global};

/// The first field of an instance.
#[tactic(auto, unfolding(cc_meaning_builtin::specs::Calls::message_of))]
fn first_field(world: &World, id: ObjId) -> Option<Value>
    ensures { result ≡ message_at world.now.world.objects id }
{
    if id >= world.len() {
        return None;
    }
    match world.get(id) {
        Object::Instance { values, .. } => values.get(0).copied(),
        _ => None,
    }
}

/// A throwable's message.
fn message(world: &World, id: ObjId) -> CallEnd
    ensures { Ends (run_act (Look id (λ o. on_some (message_of o) returns)) world.now.world) world.now result world.now }
{
    match first_field(world, id) {
        Some(value) => CallEnd::Returned(Some(value)),
        None => UNFIT,
    }
}

/// How many units a text has.
fn text_length(world: &World, id: ObjId) -> CallEnd
    ensures { Ends (run_act (on_text id (λ units. on_some (length_of units) (λ n. returns (Value.Int n)))) world.now.world) world.now result world.now }
{
    let Some(units) = text(world, id) else {
        return UNFIT;
    };
    if units.len() < 1 << 31 {
        CallEnd::Returned(Some(Value::Int(units.len() as i32)))
    } else {
        UNFIT
    }
}

/// A new text of a builder's units.
fn built_text(alloc: Global, world: &mut World, id: ObjId) -> Result<CallEnd, Memory>
    requires { length world.old.world.objects + 1 < 2 ^ 32 }
    ensures ok { IfOk result (λ end. Ends (run_act (Look id (λ o. on_some (builder_of o) (λ units. Make (Object.Text units) returns_object))) world.old.world) world.old end world.new) }
    ensures err { OnErr result (world.new ≡ world.old) }
{
    let Some(units) = builder(world, id) else {
        return Ok(UNFIT);
    };
    let held = units.len();
    let text = copy(alloc, units.as_slice())?;
    give(world, Object::Text(text), held)
}

/// A copy of an array, with the number of its elements.
#[tactic(auto, unfolding(cc_meaning_builtin::specs::Calls::copy_of))]
fn array_copy(
    alloc: Global,
    world: &World,
    id: ObjId,
) -> Result<Option<(Object, usize)>, AllocError>
    ensures object { IfOk result (λ copy. option_map (λ pair. pair.0) copy ≡ copy_at world.now.world.objects id) }
    ensures held { IfOk result (λ copy. IfSome copy (λ pair. words_of pair.0 ≡ 2 + pair.1)) }
{
    if id >= world.len() {
        return Ok(None);
    }
    let Object::Array { class, values } = world.get(id) else {
        return Ok(None);
    };
    let class = *class;
    let held = values.len();
    let mut elements = List::new(alloc);
    elements.extend_from_slice(values.as_slice())?;
    Ok(Some((
        Object::Array {
            class,
            values: elements,
        },
        held,
    )))
}

/// A new array of equal elements.
fn clone_array(alloc: Global, world: &mut World, id: ObjId) -> Result<CallEnd, Memory>
    requires { length world.old.world.objects + 1 < 2 ^ 32 }
    ensures ok { IfOk result (λ end. Ends (run_act (Look id (λ o. on_some (copy_of o) (λ copy. Make copy returns_object))) world.old.world) world.old end world.new) }
    ensures err { OnErr result (world.new ≡ world.old) }
{
    match array_copy(alloc, world, id)? {
        Some((object, held)) => give(world, object, held),
        None => Ok(UNFIT),
    }
}

/// An instance with another value in its first field.
#[tactic(auto, unfolding(cc_meaning_builtin::specs::Acts::with_field))]
fn with_message(
    alloc: Global,
    world: &World,
    id: ObjId,
    message: Option<ObjId>,
) -> Result<Option<Object>, AllocError>
    ensures { IfOk result (λ object. object ≡ option_and_then (with_field 0 (Value.Obj message)) (slice_get world.now.world.objects id)) }
{
    if id >= world.len() {
        return Ok(None);
    }
    let Object::Instance { class, values } = world.get(id) else {
        return Ok(None);
    };
    let class = *class;
    if values.is_empty() {
        return Ok(None);
    }
    let mut fields = List::new(alloc);
    fields.extend_from_slice(values.as_slice())?;
    fields.set(0, Value::Obj(message));
    Ok(Some(Object::Instance {
        class,
        values: fields,
    }))
}

/// Sets a throwable's message, a text or null.
#[tactic(auto, using(crate::proofs::Ending::put_ends, crate::proofs::Ending::no_put_ends))]
pub(crate) fn set_message(
    alloc: Global,
    world: &mut World,
    id: ObjId,
    message: Option<ObjId>,
) -> Result<CallEnd, Memory>
    ensures ok { IfOk result (λ end. Ends (run_act (Put id 0 (Value.Obj message) returns_nothing) world.old.world) world.old end world.new) }
    ensures err { OnErr result (world.new ≡ world.old) }
{
    match with_message(alloc, world, id, message)? {
        Some(object) => {
            world.put(id, object);
            Ok(CallEnd::Returned(None))
        }
        None => Ok(UNFIT),
    }
}

/// What a method without parameters does with its receiver.
#[tactic(auto, using(crate::proofs::Ending::any_method), unfolding(cc_meaning_builtin::specs::Calls::alone, cc_meaning_builtin::specs::Calls::returns_nothing, cc_meaning_builtin::specs::Acts::run_act))]
pub(crate) fn call_alone(
    alloc: Global,
    world: &mut World,
    does: BuiltIn,
    id: ObjId,
) -> Result<CallEnd, Memory>
    requires room { HasRoom world.old }
    ensures ok { IfOk result (λ end. (method : ℕ) → Ends (run_act (alone does method id) world.old.world) world.old end world.new) }
    ensures err { OnErr result (world.new ≡ world.old) }
{
    match does {
        BuiltIn::Construct => Ok(CallEnd::Returned(None)),
        BuiltIn::ConstructThrowable => set_message(alloc, world, id, None),
        BuiltIn::Message => Ok(message(world, id)),
        BuiltIn::TextLength => Ok(text_length(world, id)),
        BuiltIn::BuiltText => built_text(alloc, world, id),
        BuiltIn::EndLine => end_line(alloc, world),
        BuiltIn::CloneArray => clone_array(alloc, world, id),
        _ => Ok(UNFIT),
    }
}

/// Prints a line feed.
fn end_line(alloc: Global, world: &mut World) -> Result<CallEnd, Memory>
    requires { length world.old.world.events + 1 < 2 ^ 32 }
    ensures ok { IfOk result (λ end. (method : ℕ) → Ends (run_act (Tell method (10 ∷ []) returns_nothing) world.old.world) world.old end world.new) }
    ensures err { OnErr result (world.new ≡ world.old) }
{
    let mut units = List::new(alloc);
    units.push(LINE_FEED)?;
    tell(world, units)
}
