//! What is known at each address of a method.

ghost use Rattle.std.specs.Prelude.{◌≡◌, ◌≢◌, ◌<◌, ◌^◌, ℕ, Some, None, IfOk, IfSome, IsSome, OnOk, length, replicate, slice_set};
ghost use Rattle.std.specs.Bool.{MatchBool};
ghost use Rattle.cc_meaning_typing.specs.Growth.{AreNarrow, IsNarrow, IsNarrowPending, IsNarrowRegister};
ghost use Rattle.cc_meaning_typing.specs.States.{join_states};
ghost use Rattle.cc_meaning_typing.specs.WellFormed.{IsLaidOut};
ghost use Rattle.cc_meaning_typing.specs.declared.state.State.{State};
ghost use Rattle.cc_meaning_typing.specs.Ending.{AreNarrowStates, width_of};
ghost use Rattle.cc_meaning_typing.specs.VerifyLaws.{AreWide, Spreads};
ghost use Rattle.cc_meaning_typing.specs.Tries.{joined, lead, opening_due, opening_states, state_at, units_of};
ghost use Rattle.cc_transfer.specs.Bodies.{body_of};
ghost use Rattle.cc_verify.specs.Tables.{due_of};

use cc_list::List;
use cc_meaning::program::{Code, RegType};
use cc_meaning_typing::{Pending, State, law_laid_out, law_leads_spread};
use cc_transfer::{MethodBody, join_state, opening};
use std::alloc::{AllocError, Global};
use std::collections::BTreeSet;

/// What is known at each address of a method, and the addresses whose state is new or has changed since its last try.
#[derive(Drop)]
pub struct Table {
    pub states: List<Option<State>>,
    pub due: BTreeSet<usize>,
}

/// How many units a method has.
pub fn units(code: &Code) -> usize
    requires { IsLaidOut code.now }
    ensures units { result ≡ units_of code.now }
    ensures fits { result < 2 ^ 32 }
{
    law_laid_out();
    let insns = code.insns.as_slice();
    let mut units = 0;
    for placed in insns {
        units += placed.units as usize;
    }
    units
}

/// A type has fewer than 256 dimensions.
fn look_at_one(known: RegType)
    ensures { IsNarrowRegister known }
{
    if let RegType::Reference(of) = known {
        let _dims = of.dims;
    }
}

/// A type has fewer than 256 dimensions.
fn look_at_pending(pending: Pending)
    ensures { IsNarrowPending pending }
{
    if let Pending::Exception(of) = pending {
        let _dims = of.dims;
    }
}

/// Looks at each register: a type has fewer than 256 dimensions.
fn look_at(registers: &List<RegType>)
    ensures { AreNarrow registers.now }
{
    let registers = registers.as_slice();
    for known in registers {
        look_at_one(*known);
    }
}

/// Joins a state into a known one, and says whether that has changed.
fn rise(
    body: &MethodBody<'_>,
    known: &mut State,
    registers: &List<RegType>,
    pending: Pending,
) -> bool
    requires { length known.old.registers ≡ length registers.now }
    ensures joined { known.new ≡ join_states body.now.program.now known.old (record { registers = registers.now; pending = pending }) }
    ensures changed { MatchBool result (known.new ≢ known.old) (known.new ≡ known.old) }
    ensures narrow { IsNarrow known.new }
{
    let unchanged = join_state(body, known, registers, pending);
    look_at(&known.registers);
    look_at_pending(known.pending);
    !unchanged
}

/// Joins a state into what is known at an address, and says whether that has changed.
#[tactic(auto, unfolding(cc_meaning_typing::specs::Tries::joined))]
fn enter(
    body: &MethodBody<'_>,
    known: &mut Option<State>,
    registers: &List<RegType>,
    pending: Pending,
) -> Result<bool, AllocError>
    requires { (u : State) → known.old ≡ Some u → length u.registers ≡ length registers.now }
    ensures joined { OnOk result (known.new ≡ Some (joined body.now.program.now known.old (record { registers = registers.now; pending = pending }))) }
    ensures changed { IfOk result (λ changed. MatchBool changed (known.new ≢ known.old) (known.new ≡ known.old)) }
    ensures narrow { OnOk result (IfSome known.new IsNarrow) }
{
    match known {
        Some(state) => Ok(rise(body, state, registers, pending)),
        None => {
            *known = Some(begun(registers, pending)?);
            Ok(true)
        }
    }
}

/// A state of its own with these registers.
fn begun(registers: &List<RegType>, pending: Pending) -> Result<State, AllocError>
    ensures state { IfOk result (λ state. state ≡ record { registers = registers.now; pending = pending }) }
    ensures narrow { IfOk result IsNarrow }
{
    look_at(registers);
    look_at_pending(pending);
    Ok(State {
        registers: registers.copy()?,
        pending,
    })
}

/// Control comes to an address with a state. An address before the first, or past the last, is none of the method.
#[tactic(auto, unfolding(cc_meaning_typing::specs::Tries::lead))]
pub fn lead(
    body: &MethodBody<'_>,
    table: &mut Table,
    to: Option<u64>,
    registers: &List<RegType>,
    pending: Pending,
) -> Result<(), AllocError>
    requires wide { AreWide (body_of body.now) table.old.states }
    requires as_many { length registers.now ≡ width_of (body_of body.now) }
    ensures states { OnOk result (table.new.states ≡ lead body.now.program.now (record { registers = registers.now; pending = pending }) table.old.states to) }
    ensures spreads { OnOk result (Spreads (body_of body.now) table.old.states table.new.states (due_of table.old.due) (due_of table.new.due)) }
    ensures narrow { OnOk result (AreNarrowStates table.old.states → AreNarrowStates table.new.states) }
{
    law_leads_spread();
    let Some(to) = to else {
        return Ok(());
    };
    let to = to as usize;
    if to < table.states.len() {
        let changed = enter(body, table.states.at_mut(to), registers, pending)?;
        if changed {
            table.due.insert(to)?;
        }
    }
    Ok(())
}

/// As many addresses as there are units, with nothing known.
fn blank(alloc: Global, units: usize) -> Result<List<Option<State>>, AllocError>
    ensures { IfOk result (λ states. states ≡ replicate units None) }
{
    let mut states = List::new(alloc);
    for _at in 0..units {
        states.push(None)?;
    }
    Ok(states)
}

/// A state is known at the first address, where there is one.
fn begin(states: &mut List<Option<State>>, opening: State)
    ensures { states.new ≡ slice_set states.old 0 (Some opening) }
{
    if !states.is_empty() {
        states.set(0, Some(opening));
    }
}

/// The table as a method begins: the opening state is known at its first address, which is due.
pub fn opened(alloc: Global, body: &MethodBody<'_>) -> Result<Table, AllocError>
    ensures states { IfOk result (λ table. table.states ≡ opening_states (body_of body.now)) }
    ensures due { IfOk result (λ table. (at : ℕ) → due_of table.due at ≡ opening_due at) }
    ensures narrow { IfOk result (λ table. AreNarrowStates table.states) }
{
    let opening = opening(alloc, body)?;
    look_at(&opening.registers);
    look_at_pending(opening.pending);
    let mut states = blank(alloc, units(body.code))?;
    begin(&mut states, opening);
    let mut due = BTreeSet::new(alloc);
    due.insert(0)?;
    Ok(Table { states, due })
}

/// What is known at an address, to be changed.
pub fn known_at(table: &Table, at: usize) -> Result<State, AllocError>
    requires within { at < length table.now.states }
    requires known { IsSome (state_at table.now.states at) }
    ensures { IfOk result (λ state. state_at table.now.states at ≡ Some state) }
{
    match table.states.at(at) {
        Some(state) => Ok(State {
            registers: state.registers.copy()?,
            pending: state.pending,
        }),
        None => unreachable!(),
    }
}
