//! Numbers in LEB128.

ghost use Rattle.std.specs.Prelude.{◌≡◌, ◌≤◌, ◌<◌, ◌^◌, ℕ, ℤ, length, IfOk, OnErr};
ghost use Rattle.cc_meaning_dex.specs.Leb128.{leb_size, leb_value, signed_leb_value, uleb_at, sleb_at, SpellsUleb, SpellsSleb};

use cc_meaning::fault::LebFault;
use cc_meaning_dex::{sleb_agrees, uleb_agrees};

/// The number of 32 bits in ULEB128 at `at`, and the place after it.
pub fn uleb(bytes: &[u8], at: usize) -> Result<(u32, usize), LebFault>
    ensures exact { result ≡ uleb_at bytes.now at }
    ensures spelled { IfOk result (λ read. SpellsUleb bytes.now at read.0 read.1) }
    ensures refused { OnErr result ((n next : ℕ) → ¬ SpellsUleb bytes.now at n next) }
{
    uleb_agrees();
    read_uleb(bytes, at)
}

fn read_uleb(bytes: &[u8], at: usize) -> Result<(u32, usize), LebFault>
    ensures { result ≡ uleb_at bytes.now at }
{
    if at > bytes.len() {
        return Err(LebFault::CutOff);
    }
    let (_, rest) = bytes.split_at(at);
    let size = number_size(rest)?;
    let (groups, _) = rest.split_at(size);
    let value = number_value(groups);
    if value < 1 << 32 {
        Ok((value as u32, at + size))
    } else {
        Err(LebFault::TooBig)
    }
}

/// The signed number of 32 bits in SLEB128 at `at`, and the place after it.
pub fn sleb(bytes: &[u8], at: usize) -> Result<(i32, usize), LebFault>
    ensures exact { result ≡ sleb_at bytes.now at }
    ensures spelled { IfOk result (λ read. SpellsSleb bytes.now at read.0 read.1) }
    ensures refused { OnErr result ((n : ℤ) (next : ℕ) → ¬ SpellsSleb bytes.now at n next) }
{
    sleb_agrees();
    read_sleb(bytes, at)
}

fn read_sleb(bytes: &[u8], at: usize) -> Result<(i32, usize), LebFault>
    ensures { result ≡ sleb_at bytes.now at }
{
    if at > bytes.len() {
        return Err(LebFault::CutOff);
    }
    let (_, rest) = bytes.split_at(at);
    let size = number_size(rest)?;
    let (groups, _) = rest.split_at(size);
    let value = signed_value(groups);
    if value >= i64::from(i32::MIN) && value <= i64::from(i32::MAX) {
        Ok((value as i32, at + size))
    } else {
        Err(LebFault::TooBig)
    }
}

/// How many bytes the number in front takes.
fn number_size(bytes: &[u8]) -> Result<usize, LebFault>
    ensures value { result ≡ leb_size 5 bytes.now }
    ensures within { IfOk result (λ size. size ≤ length bytes.now) }
    ensures few { IfOk result (λ size. size ≤ 5) }
    ensures some { IfOk result (λ size. 0 < size) }
{
    for i in 0..5 {
        if i >= bytes.len() {
            return Err(LebFault::CutOff);
        }
        if bytes[i] < 128 {
            return Ok(i + 1);
        }
    }
    Err(LebFault::TooBig)
}

/// The number in the groups of these bytes.
fn number_value(bytes: &[u8]) -> u64
    requires { length bytes.now ≤ 5 }
    ensures { result ≡ leb_value bytes.now }
{
    if bytes.is_empty() {
        return 0;
    }
    u64::from(bytes[0] % 128) + 128 * number_value(&bytes[1..])
}

/// The number in the groups of these bytes, where the last one's bit 6 is a sign.
fn signed_value(bytes: &[u8]) -> i64
    requires some { 0 < length bytes.now }
    requires few { length bytes.now ≤ 5 }
    ensures { result ≡ signed_leb_value bytes.now }
{
    let group = i64::from(bytes[0] % 128);
    if bytes.len() > 1 {
        return group + 128 * signed_value(&bytes[1..]);
    }
    if group < 64 { group } else { group - 128 }
}
