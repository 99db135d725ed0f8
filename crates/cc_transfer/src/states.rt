//! States as a method begins, at a handler, and where control meets.

ghost use Rattle.std.specs.Prelude.{◌≡◌, ◌↔◌, ◌++◌, IsTrue, IfOk, OnOk, length, replicate};
ghost use Rattle.std.specs.List.{flat_map};
ghost use Rattle.cc_meaning.specs.declared.program.RegType.TheVariants as register;
ghost use Rattle.cc_meaning_typing.specs.declared.state.State.{State};
ghost use Rattle.cc_meaning_typing.specs.declared.state.Pending.TheVariants.{Exception};
ghost use Rattle.cc_meaning_typing.specs.Hierarchy.{IsHierarchy};
ghost use Rattle.cc_meaning_typing.specs.States.{argument_registers, join_pending, join_states, opening, registers_of};
ghost use Rattle.cc_meaning_typing.specs.Rules.{caught_type};

use crate::body::MethodBody;
use crate::registers::kind_of;
use crate::types::class_type;
use cc_list::List;
use cc_meaning::instruction::Kind;
use cc_meaning::program::{Catch, DexType, Method, Program, RegType};
use cc_meaning_typing::{Pending, State};
use cc_types::{held, join_into, least_above, register_of, same_type};
use std::alloc::{AllocError, Global};

/// What is pending as a handler begins: an exception of the type that it takes, of Throwable where it takes every one. Takes no memory.
/// Source: Dalvik bytecode, instruction move-exception.
#[tactic(auto, unfolding(cc_meaning_typing::specs::Rules::caught_type))]
pub fn handler_pending(body: &MethodBody<'_>, catch: &Catch) -> Pending
    ensures { result ≡ Exception (caught_type body.now.program.now catch.now.kind) }
{
    match catch.kind {
        None => Pending::Exception(class_type(body.landmarks.throwable)),
        Some(ty) => Pending::Exception(held(ty, body.program)),
    }
}

/// Adds the registers of a parameter.
#[tactic(auto, unfolding(cc_meaning_typing::specs::States::registers_of, cc_meaning_typing::specs::States::registers_of_kind))]
fn add_parameter(
    registers: &mut List<RegType>,
    program: &Program,
    ty: DexType,
) -> Result<(), AllocError>
    requires { IsHierarchy program.now }
    ensures { OnOk result (registers.new ≡ registers.old ++ registers_of program.now ty) }
{
    match kind_of(ty) {
        Kind::Wide => {
            registers.push(RegType::LongLow)?;
            registers.push(RegType::LongHigh)
        }
        _ => registers.push(register_of(ty, program)),
    }
}

/// Adds the registers of parameters in order.
fn add_parameters(
    registers: &mut List<RegType>,
    program: &Program,
    params: &[DexType],
) -> Result<(), AllocError>
    requires { IsHierarchy program.now }
    ensures { OnOk result (registers.new ≡ registers.old ++ flat_map (registers_of program.now) params.now) }
{
    for ty in params {
        add_parameter(registers, program, *ty)?;
    }
    Ok(())
}

/// The registers of a method's arguments, the receiver's first.
#[tactic(auto, unfolding(cc_meaning_typing::specs::States::argument_registers))]
fn argument_registers(
    alloc: Global,
    program: &Program,
    method: &Method,
) -> Result<List<RegType>, AllocError>
    requires { IsHierarchy program.now }
    ensures { IfOk result (λ registers. registers ≡ argument_registers program.now method.now) }
{
    let mut registers = List::new(alloc);
    if !method.is_static {
        registers.push(register_of(class_type(method.class), program))?;
    }
    add_parameters(&mut registers, program, method.params.as_slice())?;
    Ok(registers)
}

/// So many registers of which nothing is known.
fn unset(alloc: Global, count: usize) -> Result<List<RegType>, AllocError>
    ensures { IfOk result (λ registers. registers ≡ replicate count register.Unset) }
{
    let mut registers = List::new(alloc);
    for _ in 0..count {
        registers.push(RegType::Unset)?;
    }
    Ok(registers)
}

/// The state as a method begins: its last registers hold the arguments, and nothing is known of the others.
/// Source: Dalvik Executable format, section code_item, `ins_size`.
#[tactic(auto, unfolding(cc_meaning_typing::specs::States::opening))]
pub fn opening(alloc: Global, body: &MethodBody<'_>) -> Result<State, AllocError>
    ensures { IfOk result (λ state. state ≡ opening body.now.program.now body.now.method.now body.now.code.now) }
{
    let arguments = argument_registers(alloc, body.program, body.method)?;
    let others = usize::from(body.code.registers).saturating_sub(arguments.len());
    let mut registers = unset(alloc, others)?;
    registers.append(arguments)?;
    Ok(State {
        registers,
        pending: Pending::Nothing,
    })
}

/// What is pending where control meets: the same result, or of two exceptions one of the least type that both are below, else nothing.
#[tactic(auto, unfolding(cc_meaning_typing::specs::States::join_pending))]
fn join_pending(body: &MethodBody<'_>, a: Pending, b: Pending) -> Pending
    ensures { result ≡ join_pending body.now.program.now a b }
{
    match (a, b) {
        (Pending::Result(left), Pending::Result(right)) => {
            if same_type(left, right) {
                Pending::Result(left)
            } else {
                Pending::Nothing
            }
        }
        (Pending::Exception(left), Pending::Exception(right)) => {
            Pending::Exception(least_above(body.program, body.landmarks.object, left, right))
        }
        _ => Pending::Nothing,
    }
}

fn same_pending(a: Pending, b: Pending) -> bool
    ensures { IsTrue result ↔ (a ≡ b) }
{
    match (a, b) {
        (Pending::Nothing, Pending::Nothing) => true,
        (Pending::Result(left), Pending::Result(right)) => same_type(left, right),
        (Pending::Exception(left), Pending::Exception(right)) => same_type(left, right),
        _ => false,
    }
}

/// Joins another state, by its registers and what is pending there, into this one, and says whether nothing has changed. Takes no memory.
#[tactic(auto, unfolding(cc_meaning_typing::specs::States::join_states))]
pub fn join_state(
    body: &MethodBody<'_>,
    state: &mut State,
    registers: &List<RegType>,
    pending: Pending,
) -> bool
    requires as_many { length state.old.registers ≡ length registers.now }
    ensures joined { state.new ≡ join_states body.now.program.now state.old (record { registers = registers.now; pending = pending }) }
    ensures unchanged { IsTrue result ↔ (state.new ≡ state.old) }
{
    let joined = join_pending(body, state.pending, pending);
    let same = same_pending(joined, state.pending);
    state.pending = joined;
    join_into(&mut state.registers, registers, body.program) && same
}
