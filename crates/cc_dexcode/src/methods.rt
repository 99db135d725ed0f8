//! Methods with their code.

ghost use Rattle.std.specs.Prelude.{◌≡◌, ◌≢◌, ◌<◌, ◌^◌};
ghost use Rattle.cc_meaning_dex.specs.Numbers.{Within};
ghost use Rattle.cc_meaning_dex.specs.Tries.{code_item_at, code_of, method_of};
ghost use Rattle.cc_dexcode.specs.Finding.{Finds};

use crate::code::UnitReader;
use crate::flaw::Flaw;
use crate::tries::read_tries;
use crate::walk::read_list;
use cc_meaning::file::{Ids, RawCode, RawMethod};
use cc_meaning_dex::StatedMethod;
use cc_text::{u16_at, u32_at};
use std::alloc::Global;

/// The code item at `at`.
#[tactic(auto, unfolding(cc_meaning_dex::specs::Tries::code_item_at))]
fn read_code_item(alloc: Global, file: &[u8], ids: &Ids, at: usize) -> Result<RawCode, Flaw>
    requires head { Within file.now at 16 }
    requires small { at < 2 ^ 32 }
    ensures { Finds (code_item_at file.now ids.now at) result }
{
    let (units, _) = read_list(alloc, &UnitReader { file }, u32_at(file, at + 12), at + 16)?;
    let tries = read_tries(alloc, file, ids, at)?;
    Ok(RawCode {
        registers: u16_at(file, at),
        ins: u16_at(file, at + 2),
        units,
        tries,
    })
}

/// The code at `at`, none at offset 0.
#[tactic(auto, unfolding(cc_meaning_dex::specs::Tries::code_of))]
fn read_code(alloc: Global, file: &[u8], ids: &Ids, at: u32) -> Result<Option<RawCode>, Flaw>
    requires { at ≢ 0 → Within file.now at 16 }
    ensures { Finds (code_of file.now ids.now at) result }
{
    if at == 0 {
        return Ok(None);
    }
    let code = read_code_item(alloc, file, ids, at as usize)?;
    Ok(Some(code))
}

/// A method with its code.
#[tactic(auto, unfolding(cc_meaning_dex::specs::Tries::method_of))]
pub fn read_method(
    alloc: Global,
    file: &[u8],
    ids: &Ids,
    stated: StatedMethod,
) -> Result<RawMethod, Flaw>
    requires { stated.code_at ≢ 0 → Within file.now stated.code_at 16 }
    ensures { Finds (method_of file.now ids.now stated) result }
{
    let code = read_code(alloc, file, ids, stated.code_at)?;
    Ok(RawMethod {
        row: stated.row,
        flags: stated.flags,
        is_direct: stated.is_direct,
        code,
    })
}
