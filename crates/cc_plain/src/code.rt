//! The reader of a code item (Dalvik Executable format, `code_item`).

ghost use Rattle.std.specs.Prelude.{◌≡◌, ◌↔◌, ◌≤◌, ℕ, List, map, IsTrue, IfOk, MatchOption};
ghost use Rattle.cc_meaning.specs.Order.{IsRising};
ghost use Rattle.cc_meaning_dex.specs.Numbers.{Within};
ghost use Rattle.cc_meaning_plain.specs.declared.plain.PlainCode.{PlainCode};
ghost use Rattle.cc_meaning_plain.specs.Tables.{IsHeader, HasTables};
ghost use Rattle.cc_meaning_plain.specs.Code.{IsPlainCode};
ghost use Rattle.cc_meaning_plain.specs.Plain.{name_of};
ghost use Rattle.cc_plain.specs.Code.{scope_in, IsOfKind, IsPlainHead};

use super::instructions::read_insns;
use super::kind::{Kind, Known};
use super::uses::uses_what_is_set;
use cc_meaning_plain::{PlainCode, law_insns_once};
use cc_text::{u16_at, u32_at};
use std::alloc::{AllocError, Global};

fn is_plain_head(file: &[u8], at: usize) -> bool
    requires { Within file.now at 16 }
    ensures { IsTrue result ↔ IsPlainHead file.now at }
{
    let registers = u16_at(file, at);
    1 <= registers
        && registers <= 16
        && u16_at(file, at + 2) == 1
        && u16_at(file, at + 6) == 0
        && u32_at(file, at + 12) <= 1000
}

/// The code item at `at` of a method of that kind, or `None` where none stands there.
pub fn read_code(
    alloc: Global,
    file: &[u8],
    known: &Known,
    kind: Kind,
    at: u32,
) -> Result<Option<PlainCode>, AllocError>
    requires header { IsHeader file.now }
    requires tables { HasTables file.now }
    requires rising { IsRising (map name_of known.now.functions) }
    ensures { IfOk result (λ read. MatchOption read
        ((code : PlainCode) → IsOfKind kind code.last → IsPlainCode file.now (scope_in known.now) at code → ⊥)
        (λ code. IsOfKind kind code.last × IsPlainCode file.now (scope_in known.now) at code)) }
{
    law_insns_once();
    let start = at as usize;
    let len = file.len();
    if start == 0 || len < 16 || len - 16 < start || !is_plain_head(file, start) {
        return Ok(None);
    }
    let registers = u16_at(file, start);
    let units = u32_at(file, start + 12) as usize;
    if len - 16 - start < 2 * units {
        return Ok(None);
    }
    let Some((insns, last)) = read_insns(alloc, file, known, kind, registers, start + 16, units)?
    else {
        return Ok(None);
    };
    if uses_what_is_set(registers, insns.as_slice(), last) {
        Ok(Some(PlainCode {
            registers,
            insns,
            last,
        }))
    } else {
        Ok(None)
    }
}
