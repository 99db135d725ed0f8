//! Texts in MUTF-8.

ghost use Rattle.std.specs.Prelude.{◌≡◌, ◌≢◌, ◌≤◌, ◌<◌, ◌^◌, ◌⊎◌, ℕ, List, length, drop, IsOk, IfOk, IfErr, IsErrOf, IsSome};
ghost use Rattle.cc_meaning_dex.specs.Mutf8.{SpellsMutf8, text_of, mutf8_at};
ghost use Rattle.cc_meaning_dex.specs.Texts.{SpellsText, text_item_at, text_at};
ghost use Rattle.cc_text.specs.Measured.{measured};

use crate::forms::front;
use crate::leb128::uleb;
use cc_meaning::fault::{LebFault, TextFault};
use cc_meaning_dex::{mutf8_agrees, mutf8_answers, text_agrees, text_steps};
use std::alloc::{AllocError, Global};

/// The text of that many units in MUTF-8 at `at`, and the place after its zero byte. Memory is taken once, and only where there is such a text.
pub fn mutf8(
    alloc: Global,
    bytes: &[u8],
    at: usize,
    count: u32,
) -> Result<(Vec<u16>, usize), TextFault>
    ensures ok { IfOk result (λ read. mutf8_at bytes.now at count ≡ Ok (read.0.items, read.1)) }
    ensures err { IfErr result (λ fault. fault ≢ TextFault.Memory → mutf8_at bytes.now at count ≡ Err fault) }
    ensures memory { IsErrOf result TextFault.Memory → IsOk (mutf8_at bytes.now at count) }
    ensures counted { IfOk result (λ read. length read.0.items ≡ count) }
    ensures spelled { IfOk result (λ read. SpellsMutf8 bytes.now at read.0.items read.1) }
    ensures refused { IfErr result (λ fault. fault ≢ TextFault.Memory →
        (units : List ℕ) (next : ℕ) → length units ≡ count → ¬ SpellsMutf8 bytes.now at units next) }
{
    mutf8_agrees();
    mutf8_answers();
    read_mutf8(alloc, bytes, at, count)
}

/// The units of the text item at `at`. Memory is taken once, and only where there is such an item.
pub fn text(alloc: Global, bytes: &[u8], at: usize) -> Result<Vec<u16>, TextFault>
    ensures ok { IfOk result (λ units. text_at bytes.now at ≡ Some units.items) }
    ensures err { IfErr result (λ fault. fault ≢ TextFault.Memory → text_item_at bytes.now at ≡ Err fault) }
    ensures memory { IsErrOf result TextFault.Memory → IsSome (text_at bytes.now at) }
    ensures spelled { IfOk result (λ units. SpellsText bytes.now at units.items) }
    ensures refused { IfErr result (λ fault. fault ≢ TextFault.Memory → (units : List ℕ) → ¬ SpellsText bytes.now at units) }
{
    text_agrees();
    read_text(alloc, bytes, at)
}

fn read_text(alloc: Global, bytes: &[u8], at: usize) -> Result<Vec<u16>, TextFault>
    ensures ok { IfOk result (λ units. text_at bytes.now at ≡ Some units.items) }
    ensures err { IfErr result (λ fault. fault ≢ TextFault.Memory → text_item_at bytes.now at ≡ Err fault) }
    ensures memory { IsErrOf result TextFault.Memory → IsSome (text_at bytes.now at) }
{
    match uleb(bytes, at) {
        Ok((count, place)) => match mutf8(alloc, bytes, place, count) {
            Ok((units, _)) => Ok(units),
            Err(fault) => Err(fault),
        },
        Err(LebFault::CutOff) => Err(TextFault::CutOff),
        Err(LebFault::TooBig) => Err(TextFault::BadCount),
    }
}

fn read_mutf8(
    alloc: Global,
    bytes: &[u8],
    at: usize,
    count: u32,
) -> Result<(Vec<u16>, usize), TextFault>
    ensures ok { IfOk result (λ read. mutf8_at bytes.now at count ≡ Ok (read.0.items, read.1)) }
    ensures err { IfErr result (λ fault. fault ≢ TextFault.Memory → mutf8_at bytes.now at count ≡ Err fault) }
    ensures memory { IsErrOf result TextFault.Memory → IsOk (mutf8_at bytes.now at count) }
{
    text_steps();
    if at > bytes.len() {
        return Err(TextFault::CutOff);
    }
    let (length, next) = measure(bytes, at)?;
    if length != count as usize {
        return Err(TextFault::BadCount);
    }
    match decode(alloc, bytes, at, length) {
        Ok(units) => Ok((units, next)),
        Err(_) => Err(TextFault::Memory),
    }
}

/// How many units the text at `at` has, and the place after its zero byte.
fn measure(bytes: &[u8], at: usize) -> Result<(usize, usize), TextFault>
    requires { at ≤ length bytes.now }
    ensures { result ≡ measured (text_of at (drop at bytes.now)) }
{
    text_steps();
    let mut count = 0;
    let mut place = at;
    loop {
        let (_, rest) = bytes.split_at(place);
        match front(place, rest) {
            Ok(Some((_, size))) => {
                count += 1;
                place += size;
            }
            Ok(None) => return Ok((count, place + 1)),
            Err(fault) => return Err(fault),
        }
    }
}

/// The units of the text at `at`, which is well formed and has that many.
fn decode(alloc: Global, bytes: &[u8], at: usize, count: usize) -> Result<Vec<u16>, AllocError>
    requires within { at ≤ length bytes.now }
    requires well_formed { IsOk (text_of at (drop at bytes.now)) }
    ensures { IfOk result (λ units. IfOk (text_of at (drop at bytes.now)) (λ text. units.items ≡ text.0)) }
{
    text_steps();
    let mut units = Vec::with_capacity(alloc, count)?;
    let mut place = at;
    loop {
        let (_, rest) = bytes.split_at(place);
        match front(place, rest) {
            Ok(Some((unit, size))) => {
                units.push(unit)?;
                place += size;
            }
            Ok(None) => return Ok(units),
            Err(_) => unreachable!(),
        }
    }
}
