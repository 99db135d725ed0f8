//! What is known of all registers, changed in place. No call takes memory.

ghost use Rattle.std.specs.Prelude.{◌≡◌, ◌↔◌, ℕ, suc, IsTrue, length, slice_set, slice_index_or};
ghost use Rattle.cc_meaning.specs.declared.program.RegType.TheVariants.{Unset};
ghost use Rattle.cc_meaning_typing.specs.Hierarchy.{IsHierarchy};
ghost use Rattle.cc_meaning_typing.specs.States.{clear_before, clear_behind, join_registers, without_high, without_low, write, write_long};

use crate::registers::{join, same_register};
use cc_list::List;
use cc_meaning::program::{Program, RegType};

/// What is known of a register, nothing past the last one.
#[tactic(auto, using(crate::proofs::Joined::register_none))]
pub fn register(registers: &List<RegType>, at: usize) -> RegType
    ensures { result ≡ slice_index_or registers.now at Unset }
{
    match registers.get(at) {
        Some(known) => *known,
        None => RegType::Unset,
    }
}

fn set(registers: &mut List<RegType>, at: usize, known: RegType)
    ensures { registers.new ≡ slice_set registers.old at known }
{
    if at < registers.len() {
        registers.set(at, known);
    }
}

#[tactic(auto, unfolding(cc_meaning_typing::specs::States::without_low))]
fn without_low(known: RegType) -> RegType
    ensures { result ≡ without_low known }
{
    match known {
        RegType::LongLow => RegType::Unset,
        _ => known,
    }
}

#[tactic(auto, unfolding(cc_meaning_typing::specs::States::without_high))]
fn without_high(known: RegType) -> RegType
    ensures { result ≡ without_high known }
{
    match known {
        RegType::LongHigh => RegType::Unset,
        _ => known,
    }
}

#[tactic(auto, unfolding(cc_meaning_typing::specs::States::clear_behind))]
fn clear_behind(registers: &mut List<RegType>, at: u32)
    ensures { registers.new ≡ clear_behind registers.old at }
{
    let behind = at as usize + 1;
    let known = register(registers, behind);
    set(registers, behind, without_high(known));
}

#[tactic(auto, unfolding(cc_meaning_typing::specs::States::clear_before))]
fn clear_before(registers: &mut List<RegType>, at: u32)
    ensures { registers.new ≡ clear_before registers.old at }
{
    if at > 0 {
        let before = at as usize - 1;
        let known = register(registers, before);
        set(registers, before, without_low(known));
    }
}

/// Writes one register. A half of a long that stood beside it, or in it, is lost with its other half.
#[tactic(auto, unfolding(cc_meaning_typing::specs::States::write))]
pub fn write(registers: &mut List<RegType>, to: u16, known: RegType)
    ensures { registers.new ≡ write registers.old to known }
{
    let at = to as u32;
    clear_behind(registers, at);
    clear_before(registers, at);
    set(registers, at as usize, known);
}

/// Writes a long into a register and the next one. Halves of other longs that stood beside them, or in them, are lost.
#[tactic(auto, unfolding(cc_meaning_typing::specs::States::write_long))]
pub fn write_long(registers: &mut List<RegType>, to: u16)
    ensures { registers.new ≡ write_long registers.old to }
{
    let at = to as u32;
    clear_behind(registers, at + 1);
    clear_before(registers, at);
    set(registers, at as usize, RegType::LongLow);
    set(registers, at as usize + 1, RegType::LongHigh);
}

/// Joins what is known in another state into what is known here, and says whether nothing has changed.
pub fn join_into(registers: &mut List<RegType>, other: &List<RegType>, program: &Program) -> bool
    requires hierarchy { IsHierarchy program.now }
    requires as_many { length registers.old ≡ length other.now }
    ensures joined { registers.new ≡ join_registers program.now registers.old other.now }
    ensures unchanged { IsTrue result ↔ (registers.new ≡ registers.old) }
{
    let mut unchanged = true;
    for at in 0..registers.len() {
        let known = register(registers, at);
        let joined = join(known, register(other, at), program);
        set(registers, at, joined);
        if !same_register(joined, known) {
            unchanged = false;
        }
    }
    unchanged
}
