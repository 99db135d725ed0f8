//! The methods that a class lists, and the descriptor of a class.

ghost use Rattle.std.specs.Prelude.{◌≡◌, ◌≢◌, ◌↔◌, ◌∷◌, ◌≤◌, ℕ, List, length, IsTrue, All, IfOk, MatchOption};
ghost use Rattle.cc_meaning_dex.specs.Leb128.{SpellsUleb};
ghost use Rattle.cc_meaning_plain.specs.declared.plain.Member.{Member};
ghost use Rattle.cc_meaning_plain.specs.Tables.{IsHeader, IsRow, row_count};
ghost use Rattle.cc_meaning_plain.specs.Plain.{SpellsMembers, SpellsClassData, IsHigh, IsLow, IsPaired, IsNameUnit, IsClassDescriptor, IsStaticCode};
ghost use Rattle.cc_plain.specs.Class.{HaveRows};

use super::header::row_count;
use cc_list::List;
use cc_meaning_dex::one_uleb;
use cc_meaning_plain::{Member, Table};
use cc_text::uleb;
use std::alloc::{AllocError, Global};

/// Whether a unit begins a pair of UTF-16.
fn is_high(unit: u16) -> bool
    ensures { IsTrue result ↔ IsHigh unit }
{
    unit >= 0xd800 && unit <= 0xdbff
}

/// Whether a unit ends a pair of UTF-16.
fn is_low(unit: u16) -> bool
    ensures { IsTrue result ↔ IsLow unit }
{
    unit >= 0xdc00 && unit <= 0xdfff
}

/// Whether no unit begins or ends a pair without its other half.
fn is_paired(units: &[u16]) -> bool
    ensures { IsTrue result ↔ IsPaired units.now }
{
    let mut begun = false;
    for unit in units {
        let ends = is_low(*unit);
        if begun != ends {
            return false;
        }
        begun = is_high(*unit);
    }
    !begun
}

/// Whether a unit may stand in a class's name.
fn is_name_unit(unit: u16) -> bool
    ensures { IsTrue result ↔ IsNameUnit unit }
{
    unit != 59 && unit != 91 && unit != 40 && unit != 41 && unit != 58
}

/// Whether each unit may stand in a class's name.
fn has_name_units(units: &[u16]) -> bool
    ensures { IsTrue result ↔ All IsNameUnit units.now }
{
    units.iter().all(|unit| is_name_unit(*unit))
}

/// Whether these units are the descriptor of a class: `L`, a name, and `;`.
pub fn is_class_descriptor(units: &[u16]) -> bool
    ensures { IsTrue result ↔ IsClassDescriptor units.now }
{
    if units.len() < 3 {
        return false;
    }
    let last = units.len() - 1;
    if units[0] != 76 || units[last] != 59 {
        return false;
    }
    let name = &units[1..last];
    has_name_units(name) && is_paired(name)
}

/// The number in ULEB128 at `at`, and the place after it, where one stands there.
fn number(file: &[u8], at: usize) -> Option<(u32, usize)>
    ensures { MatchOption result
        ((n next : ℕ) → SpellsUleb file.now at n next → ⊥)
        (λ read. SpellsUleb file.now at read.0 read.1) }
{
    match uleb(file, at) {
        Ok(read) => Some(read),
        Err(_) => None,
    }
}

/// The place after this number in ULEB128, where it stands at `at`.
fn after_number(file: &[u8], at: usize, wanted: u32) -> Option<usize>
    ensures { MatchOption result
        ((next : ℕ) → SpellsUleb file.now at wanted next → ⊥)
        (λ next. SpellsUleb file.now at wanted next) }
{
    one_uleb();
    let (found, next) = number(file, at)?;
    if found != wanted {
        return None;
    }
    Some(next)
}

/// How many direct methods the class data at `at` lists, and where they stand, where it has no fields and no virtual methods.
fn direct_methods(file: &[u8], at: usize) -> Option<(u32, usize)>
    ensures { MatchOption result
        ((members : List Member) → SpellsClassData file.now at members → ⊥)
        (λ read. (members : List Member) → SpellsClassData file.now at members ↔ ((length members ≡ read.0) × SpellsMembers file.now read.1 0 members)) }
{
    one_uleb();
    let fields = after_number(file, at, 0)?;
    let instance_fields = after_number(file, fields, 0)?;
    let (count, direct) = number(file, instance_fields)?;
    let all = after_number(file, direct, 0)?;
    Some((count, all))
}

/// The method at `at`, which stands behind one of that row, and the place after it.
fn read_member(file: &[u8], at: usize, row: u32) -> Option<(Member, usize)>
    requires header { IsHeader file.now }
    requires row { row ≤ row_count file.now Table.Methods }
    ensures { MatchOption result
        ((member : Member) (rest : List Member) → IsRow file.now Table.Methods member.method → SpellsMembers file.now at row (member ∷ rest) → ⊥)
        (λ read. IsRow file.now Table.Methods read.0.method
        × ((member : Member) (rest : List Member) → SpellsMembers file.now at row (member ∷ rest)
        ↔ ((member ≡ read.0) × SpellsMembers file.now read.1 read.0.method rest))) }
{
    one_uleb();
    let (step, after_step) = number(file, at)?;
    let (flags, after_flags) = number(file, after_step)?;
    let (code_at, next) = number(file, after_flags)?;
    if step >= row_count(file, Table::Methods) - row {
        return None;
    }
    let method = row + step;
    Some((
        Member {
            method,
            flags,
            code_at,
        },
        next,
    ))
}

/// The methods that the class data at `at` lists, each a row of its table.
pub fn read_members(alloc: Global, file: &[u8], at: u32) -> Result<Option<List<Member>>, AllocError>
    requires { IsHeader file.now }
    ensures { IfOk result (λ read. MatchOption read
        ((members : List Member) → HaveRows file.now members → SpellsClassData file.now at members → ⊥)
        (λ members. SpellsClassData file.now at members)) }
{
    let Some((count, start)) = direct_methods(file, at as usize) else {
        return Ok(None);
    };
    let mut members = List::new(alloc);
    let mut place = start;
    let mut row = 0;
    for _ in 0..count {
        let Some((member, next)) = read_member(file, place, row) else {
            return Ok(None);
        };
        members.push(member)?;
        place = next;
        row = member.method;
    }
    Ok(Some(members))
}

/// Whether these flags are of a static method that is neither native nor abstract.
pub fn is_static_code(flags: u32) -> bool
    ensures { IsTrue result ↔ IsStaticCode flags }
{
    flags & 8 != 0 && flags & 256 == 0 && flags & 1024 == 0
}
