//! What control can reach, whatever registers hold.

ghost use Rattle.std.specs.Prelude.{◌≡◌, ◌⊎◌, ◌<◌, ℕ, true, false, Some, IfOk, OnOk, All, length, replicate};
ghost use Rattle.std.specs.Bool.{MatchBool};
ghost use Rattle.cc_meaning.specs.declared.program.Catch.{Catch};
ghost use Rattle.cc_meaning_typing.specs.WellFormed.{IsLaidOut};
ghost use Rattle.cc_meaning_typing.specs.WellTyped.{IsTarget, Reaches};
ghost use Rattle.cc_meaning_typing.specs.Faults.{FallsOff, StaysWithin};
ghost use Rattle.cc_meaning_typing.specs.Tries.{units_of};
ghost use Rattle.cc_verify.specs.Reaching.{AreReached, IsExplored, IsSeen, Looked, Widens, CanCome, seen_at};

use crate::table::units;
use cc_list::List;
use cc_meaning::program::{Catch, Code};
use cc_meaning_typing::law_laid_out;
use cc_transfer::{SuccessorAddresses, handlers, is_target, placed_at, successors};
use std::alloc::{AllocError, Global};

/// The addresses that control has come to, and those of them whose instruction hasn't been looked at.
#[derive(Drop)]
pub struct Frontier {
    pub seen: List<bool>,
    pub next: List<usize>,
}

/// Control comes to an address.
fn see(frontier: &mut Frontier, at: usize) -> Result<(), AllocError>
    requires { at < length frontier.old.seen }
    ensures widens { OnOk result (Widens frontier.old frontier.new) }
    ensures seen { OnOk result (seen_at frontier.new.seen at ≡ true) }
    ensures others { OnOk result ((other : ℕ) → seen_at frontier.new.seen other ≡ true → (seen_at frontier.old.seen other ≡ true) ⊎ (other ≡ at)) }
{
    if !*frontier.seen.at(at) {
        frontier.seen.set(at, true);
        frontier.next.push(at)?;
    }
    Ok(())
}

/// Control comes to an address, unless it is before the first. Says whether an instruction stands there.
fn come_to(code: &Code, frontier: &mut Frontier, address: Option<u64>) -> Result<bool, AllocError>
    requires laid_out { IsLaidOut code.now }
    requires reached { AreReached code.now frontier.old }
    requires comes { CanCome code.now address }
    ensures { IfOk result (λ stands. Looked code.now frontier.old frontier.new (IsSeen frontier.new.seen address) stands) }
{
    law_laid_out();
    let Some(at) = address else {
        return Ok(true);
    };
    if !is_target(code, Some(at)) {
        return Ok(false);
    }
    see(frontier, at as usize)?;
    Ok(true)
}

/// Control comes to all of these addresses. Says whether instructions stand there.
fn come_to_all(
    code: &Code,
    frontier: &mut Frontier,
    addresses: SuccessorAddresses<'_>,
) -> Result<bool, AllocError>
    requires laid_out { IsLaidOut code.now }
    requires reached { AreReached code.now frontier.old }
    requires comes { All (CanCome code.now) addresses }
    ensures { IfOk result (λ stand. Looked code.now frontier.old frontier.new (All (IsSeen frontier.new.seen) addresses.entry) stand) }
{
    let mut rest = addresses;
    while let Some(address) = rest.take_first() {
        if !come_to(code, frontier, address)? {
            return Ok(false);
        }
    }
    Ok(true)
}

/// Control comes to all of these handlers. Says whether instructions stand there.
fn come_to_handlers(
    code: &Code,
    frontier: &mut Frontier,
    handlers: &[Catch],
) -> Result<bool, AllocError>
    requires laid_out { IsLaidOut code.now }
    requires reached { AreReached code.now frontier.old }
    requires comes { All (λ (catch : Catch). Reaches code.now catch.at) handlers.now }
    ensures { IfOk result (λ stand. Looked code.now frontier.old frontier.new (All (λ (catch : Catch). seen_at frontier.new.seen catch.at ≡ true) handlers.now) stand) }
{
    for catch in handlers {
        if !come_to(code, frontier, Some(u64::from(catch.at)))? {
            return Ok(false);
        }
    }
    Ok(true)
}

/// Control goes on from an address to all successors and handlers of its instruction. Says whether instructions stand there.
fn go_on(code: &Code, frontier: &mut Frontier, at: usize) -> Result<bool, AllocError>
    requires laid_out { IsLaidOut code.now }
    requires reached { AreReached code.now frontier.old }
    requires here { Reaches code.now at }
    ensures { IfOk result (λ stand. Looked code.now frontier.old frontier.new (IsExplored code.now frontier.new.seen at) stand) }
{
    law_laid_out();
    let Some(placed) = placed_at(code, at as u64) else {
        return Ok(false);
    };
    if !come_to_all(code, frontier, successors(code, placed))? {
        return Ok(false);
    }
    let stand = come_to_handlers(code, frontier, handlers(code, placed))?;
    Ok(stand)
}

/// No address seen.
fn unseen(alloc: Global, units: usize) -> Result<List<bool>, AllocError>
    ensures { IfOk result (λ seen. seen ≡ replicate units false) }
{
    let mut seen = List::new(alloc);
    for _at in 0..units {
        seen.push(false)?;
    }
    Ok(seen)
}

/// Whether control stays within a method: it reaches neither its end nor a payload.
pub fn stays_within(alloc: Global, code: &Code) -> Result<bool, AllocError>
    requires { IsLaidOut code.now }
    ensures { IfOk result (λ stays. MatchBool stays (StaysWithin code.now) (FallsOff code.now)) }
{
    let seen = unseen(alloc, units(code))?;
    let next = List::new(alloc);
    let mut frontier = Frontier { seen, next };
    if !come_to(code, &mut frontier, Some(0))? {
        return Ok(false);
    }
    while let Some(at) = frontier.next.pop() {
        if !go_on(code, &mut frontier, at)? {
            return Ok(false);
        }
    }
    Ok(true)
}
