//! The steps that change a world, each as the last one of a call. Without memory nothing has changed.

ghost use Rattle.std.specs.Prelude.{◌≡◌, ◌+◌, ◌^◌, ◌<◌, ◌≤◌, ◌↔◌, ℕ, length, IsTrue, IfOk, OnErr, is_some, nat_le};
ghost use Rattle.cc_meaning.specs.Words.{words_of};
ghost use Rattle.cc_meaning_run.specs.Acts.{Returns, less_by};
ghost use Rattle.cc_meaning_builtin.specs.Acts.{Make, Append, Put, Tell, Done, run_act};
ghost use Rattle.cc_meaning_builtin.specs.Calls.{returns_nothing, returns_object, throw_of};
ghost use Rattle.cc_builtin.specs.Ends.{Ends};
ghost use Rattle.cc_builtin.specs.Parts.{Makes, given_end, thrown_end};

use crate::texts::{builder, copy};
use cc_heap::World;
use cc_list::List;
use cc_meaning::fault::Memory;
use cc_meaning::lists::{ClassIx, ObjId, Units};
use cc_meaning::report::{CallEnd, Event, StopCause};
use cc_meaning::value::{Object, Value};
use std::alloc::Global;

/// What a call gives whose arguments don't fit its method.
pub(crate) const UNFIT: CallEnd = CallEnd::Returned(None);

pub(crate) const LINE_FEED: u16 = 10;

/// Whether so many words are left, and two more.
#[tactic(auto, using(crate::proofs::Spending::enough, crate::proofs::Spending::too_few))]
fn can_pay(world: &World, held: usize) -> bool
    ensures yes { IsTrue result ↔ (2 + held ≤ world.now.world.counters.words) }
    ensures small { IsTrue result → 2 + held < 2 ^ 32 }
{
    let left = world.words_left() as usize;
    left >= 2 && held <= left - 2
}

/// Makes an object that holds so many values or units, where its words are left.
#[tactic(auto, using(crate::proofs::Effecting::made, crate::proofs::Effecting::unmade))]
fn make(world: &mut World, object: Object, held: usize) -> Result<Option<ObjId>, Memory>
    requires room { length world.old.world.objects + 1 < 2 ^ 32 }
    requires words { words_of object ≡ 2 + held }
    ensures ok { IfOk result (λ made. Makes object world.old made world.new) }
    ensures err { OnErr result (world.new ≡ world.old) }
{
    if !can_pay(world, held) {
        return Ok(None);
    }
    match world.make(object) {
        Ok(id) => {
            world.spend_words(2 + held as u32);
            Ok(Some(id))
        }
        Err((_, memory)) => Err(memory),
    }
}

fn given(made: Option<ObjId>) -> CallEnd
    ensures { result ≡ given_end made }
{
    match made {
        Some(id) => CallEnd::Returned(Some(Value::Obj(Some(id)))),
        None => CallEnd::Stopped(StopCause::Heap),
    }
}

fn thrown(made: Option<ObjId>) -> CallEnd
    ensures { result ≡ thrown_end made }
{
    match made {
        Some(id) => CallEnd::Thrown(id),
        None => CallEnd::Stopped(StopCause::Heap),
    }
}

/// Makes an object and gives it.
#[tactic(auto, using(crate::proofs::Effecting::given_ends))]
pub(crate) fn give(world: &mut World, object: Object, held: usize) -> Result<CallEnd, Memory>
    requires room { length world.old.world.objects + 1 < 2 ^ 32 }
    requires words { words_of object ≡ 2 + held }
    ensures ok { IfOk result (λ end. Ends (run_act (Make object returns_object) world.old.world) world.old end world.new) }
    ensures err { OnErr result (world.new ≡ world.old) }
{
    let made = make(world, object, held)?;
    Ok(given(made))
}

/// Makes an exception of a class without a message and throws it.
#[tactic(auto, using(crate::proofs::Effecting::thrown_ends))]
pub(crate) fn throw(alloc: Global, world: &mut World, class: ClassIx) -> Result<CallEnd, Memory>
    requires room { length world.old.world.objects + 1 < 2 ^ 32 }
    ensures ok { IfOk result (λ end. Ends (run_act (throw_of class) world.old.world) world.old end world.new) }
    ensures err { OnErr result (world.new ≡ world.old) }
{
    let mut values = List::new(alloc);
    values.push(Value::Obj(None))?;
    let made = make(world, Object::Instance { class, values }, 1)?;
    Ok(thrown(made))
}

/// Records what a method printed.
#[tactic(auto, using(crate::proofs::Effecting::told, crate::proofs::Effecting::untold))]
pub(crate) fn tell(world: &mut World, units: Units) -> Result<CallEnd, Memory>
    requires { length world.old.world.events + 1 < 2 ^ 32 }
    ensures ok { IfOk result (λ end. (method : ℕ) → Ends (run_act (Tell method units returns_nothing) world.old.world) world.old end world.new) }
    ensures err { OnErr result (world.new ≡ world.old) }
{
    let held = units.len();
    if !can_pay(world, held) {
        return Ok(CallEnd::Stopped(StopCause::Heap));
    }
    match world.add_event(Event::Print(units)) {
        Ok(()) => {
            world.spend_words(2 + held as u32);
            Ok(CallEnd::Returned(None))
        }
        Err((_, memory)) => Err(memory),
    }
}

/// Gives a builder more units, and then returns.
#[tactic(auto, using(crate::proofs::Effecting::no_builder, crate::proofs::Effecting::unappended, crate::proofs::Effecting::appended, crate::proofs::Effecting::builder_stands))]
pub(crate) fn append(
    alloc: Global,
    world: &mut World,
    id: ObjId,
    units: Units,
    answer: Option<Value>,
) -> Result<CallEnd, Memory>
    ensures ok { IfOk result (λ end. Ends (run_act (Append id units (Done (Returns answer))) world.old.world) world.old end world.new) }
    ensures err { OnErr result (world.new ≡ world.old) }
{
    let Some(old) = builder(world, id) else {
        return Ok(UNFIT);
    };
    let mut all = copy(alloc, old.as_slice())?;
    all.extend_from_slice(units.as_slice())?;
    let held = units.len();
    if held > world.words_left() as usize {
        return Ok(CallEnd::Stopped(StopCause::Heap));
    }
    world.spend_words(held as u32);
    world.put(id, Object::Builder(all));
    Ok(CallEnd::Returned(answer))
}
