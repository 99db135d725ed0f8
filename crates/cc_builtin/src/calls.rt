//! Calls of built-in methods.

ghost use Rattle.std.specs.Prelude.{◌≡◌, ◌∷◌, ◌^◌, ◌≤◌, ℕ, length, IfOk, OnErr};
ghost use Rattle.cc_meaning.specs.Order.{IsRisingByName};
ghost use Rattle.cc_meaning_builtin.specs.Acts.{run_act};
ghost use Rattle.cc_meaning_builtin.specs.Calls.{alone, with_argument, on_receiver, act_of, called, reference_of};
ghost use Rattle.cc_builtin.specs.Ends.{Ends, HasRoom};

use crate::argument::{call_with, throw_null_pointer};
use crate::receiver::call_alone;
use crate::rows::built_in_numbered;
use crate::steps::UNFIT;
use cc_heap::World;
use cc_meaning::fault::Memory;
use cc_meaning::lists::{MethodIx, ObjId};
use cc_meaning::program::Program;
use cc_meaning::report::CallEnd;
use cc_meaning::value::Value;
use cc_meaning_builtin::builtin::BuiltIn;
use std::alloc::Global;

/// What a method does with its receiver, which is an object.
#[tactic(auto, unfolding(cc_meaning_builtin::specs::Calls::on_receiver, cc_meaning_builtin::specs::Acts::run_act))]
fn call_on(
    alloc: Global,
    program: &Program,
    world: &mut World,
    does: BuiltIn,
    id: ObjId,
    args: &[Value],
) -> Result<CallEnd, Memory>
    requires few { length program.now.classes ≤ 2 ^ 32 }
    requires rising { IsRisingByName program.now.classes }
    requires room { HasRoom world.old }
    ensures ok { IfOk result (λ end. (method : ℕ) → Ends (run_act (on_receiver program.now does method id args.now) world.old.world) world.old end world.new) }
    ensures err { OnErr result (world.new ≡ world.old) }
{
    match args {
        [] => call_alone(alloc, world, does, id),
        [value] => call_with(alloc, program, world, does, id, *value),
        _ => Ok(UNFIT),
    }
}

/// What a method does with its receiver, null or an object.
#[tactic(auto, unfolding(cc_meaning_builtin::specs::Calls::act_of, cc_meaning_builtin::specs::Calls::on_object, cc_meaning_builtin::specs::Calls::on_object_or_null, cc_meaning_builtin::specs::Calls::on_some, cc_meaning_builtin::specs::Calls::reference_of, cc_meaning_builtin::specs::Acts::run_act), using(crate::proofs::Ending::any_method))]
fn call_receiver(
    alloc: Global,
    program: &Program,
    world: &mut World,
    does: BuiltIn,
    receiver: Value,
    args: &[Value],
) -> Result<CallEnd, Memory>
    requires few { length program.now.classes ≤ 2 ^ 32 }
    requires rising { IsRisingByName program.now.classes }
    requires room { HasRoom world.old }
    ensures ok { IfOk result (λ end. (method : ℕ) → Ends (run_act (act_of program.now does method (receiver ∷ args.now)) world.old.world) world.old end world.new) }
    ensures err { OnErr result (world.new ≡ world.old) }
{
    match receiver {
        Value::Obj(Some(id)) => call_on(alloc, program, world, does, id, args),
        Value::Obj(None) => throw_null_pointer(alloc, program, world),
        _ => Ok(UNFIT),
    }
}

/// Calls a built-in method of a program. `args` has the receiver first; where that is null a new `NullPointerException` is thrown, as by each other use of null.
/// The words that a thing takes are taken before it is made, and where too few are left the run stops. Where there is no memory the world is as before. For
/// arguments that don't fit the method nothing is said of the end.
pub fn call(
    alloc: Global,
    program: &Program,
    world: &mut World,
    method: MethodIx,
    args: &[Value],
) -> Result<CallEnd, Memory>
    requires few { length program.now.classes ≤ 2 ^ 32 }
    requires rising { IsRisingByName program.now.classes }
    requires room { HasRoom world.old }
    ensures ok { IfOk result (λ end. Ends (called program.now method args.now world.old.world) world.old end world.new) }
    ensures err { OnErr result (world.new ≡ world.old) }
{
    let Some(does) = built_in_numbered(program, method) else {
        return Ok(UNFIT);
    };
    let Some((receiver, rest)) = args.split_first() else {
        return Ok(UNFIT);
    };
    call_receiver(alloc, program, world, does, *receiver, rest)
}
