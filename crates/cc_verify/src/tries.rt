//! Tries, always of the least address whose state is new or has changed, until none is left or a rule is broken.

ghost use Rattle.std.specs.Prelude.{◌≡◌, ◌<◌, ◌^◌, ℕ, IfOk, IfSome, IsSome, MatchOption, OnOk, length};
ghost use Rattle.cc_meaning_typing.specs.WellFormed.{IsLaidOut};
ghost use Rattle.cc_meaning_typing.specs.Ending.{AreNarrowStates, width_of};
ghost use Rattle.cc_meaning_typing.specs.VerifyLaws.{AreWide, IsClosed, Spreads};
ghost use Rattle.cc_meaning_typing.specs.Tries.{BreaksAt, EndsWith, States, catch_all, lead_all, state_at, units_of};
ghost use Rattle.cc_transfer.specs.Bodies.{body_of};
ghost use Rattle.cc_verify.specs.Tables.{Tried, due_of};

use crate::table::{Table, known_at, lead, opened};
use cc_meaning::program::{Catch, Placed};
use cc_meaning_typing::{
    State, law_find_typings, law_laid_out, law_leads_spread, law_shrink_tries,
};
use cc_transfer::{
    MethodBody, SuccessorAddresses, accepts, apply, handler_pending, handlers, placed_at,
    successors, take_references,
};
use std::alloc::{AllocError, Global};

/// Control comes to each successor of an instruction with one state.
fn lead_all(
    body: &MethodBody<'_>,
    table: &mut Table,
    to: SuccessorAddresses<'_>,
    state: &State,
) -> Result<(), AllocError>
    requires wide { AreWide (body_of body.now) table.old.states }
    requires as_many { length state.now.registers ≡ width_of (body_of body.now) }
    ensures states { OnOk result (table.new.states ≡ lead_all body.now.program.now state.now table.old.states to.entry) }
    ensures spreads { OnOk result (Spreads (body_of body.now) table.old.states table.new.states (due_of table.old.due) (due_of table.new.due)) }
    ensures narrow { OnOk result (AreNarrowStates table.old.states → AreNarrowStates table.new.states) }
{
    law_leads_spread();
    let mut rest = to;
    while let Some(address) = rest.take_first() {
        lead(body, table, address, &state.registers, state.pending)?;
    }
    Ok(())
}

/// Control comes to each handler, with the registers before the instruction and its exception pending.
fn catch_all(
    body: &MethodBody<'_>,
    table: &mut Table,
    handlers: &[Catch],
    state: &State,
) -> Result<(), AllocError>
    requires wide { AreWide (body_of body.now) table.old.states }
    requires as_many { length state.now.registers ≡ width_of (body_of body.now) }
    ensures states { OnOk result (table.new.states ≡ catch_all body.now.program.now state.now table.old.states handlers.now) }
    ensures spreads { OnOk result (Spreads (body_of body.now) table.old.states table.new.states (due_of table.old.due) (due_of table.new.due)) }
    ensures narrow { OnOk result (AreNarrowStates table.old.states → AreNarrowStates table.new.states) }
{
    law_leads_spread();
    for catch in handlers {
        let pending = handler_pending(body, catch);
        lead(
            body,
            table,
            Some(u64::from(catch.at)),
            &state.registers,
            pending,
        )?;
    }
    Ok(())
}

/// Tries the rule of the instruction at an address.
fn try_at(body: &MethodBody<'_>, table: &mut Table, at: usize) -> Result<bool, AllocError>
    requires within { at < length table.old.states }
    requires fits { at < 2 ^ 32 }
    requires known { IsSome (state_at table.old.states at) }
    requires wide { AreWide (body_of body.now) table.old.states }
    ensures tried { IfOk result (λ kept. Tried (body_of body.now) table.old table.new at kept) }
    ensures narrow { OnOk result (AreNarrowStates table.old.states → AreNarrowStates table.new.states) }
{
    law_leads_spread();
    law_laid_out();
    let mut state = known_at(table, at)?;
    let Some(placed) = placed_at(body.code, at as u64) else {
        return Ok(false);
    };
    let handlers = handlers(body.code, placed);
    if !accepts(body, at as u32, &state, &placed.insn) || !take_references(handlers) {
        return Ok(false);
    }
    catch_all(body, table, handlers, &state)?;
    apply(body, at as u32, &mut state, &placed.insn);
    lead_all(body, table, successors(body.code, placed), &state)?;
    Ok(true)
}

/// The address of the first try whose rule is broken, `None` where the tries end without one.
pub fn first_broken(alloc: Global, body: &MethodBody<'_>) -> Result<Option<usize>, AllocError>
    requires { IsClosed (body_of body.now) }
    ensures broken { IfOk result (λ broken. MatchOption broken ((states : States) × EndsWith (body_of body.now) states) (BreaksAt (body_of body.now))) }
    ensures fits { IfOk result (λ broken. IfSome broken (λ at. at < 2 ^ 32)) }
{
    law_find_typings();
    law_shrink_tries();
    law_laid_out();
    let mut table = opened(alloc, body)?;
    while let Some(at) = table.due.pop_first() {
        if !try_at(body, &mut table, at)? {
            return Ok(Some(at));
        }
    }
    Ok(None)
}
