//! Code items: whether a method has the code that it is to have, where the parts stand, and the units.

ghost use Rattle.std.specs.Prelude.{◌≡◌, ◌+◌, ◌*◌, ◌≤◌, ◌==◌, ◌<◌, ◌^◌};
ghost use Rattle.std.specs.List.{sum_by};
ghost use Rattle.cc_meaning_dex.specs.Numbers.{Within};
ghost use Rattle.cc_meaning_dex.specs.CodeItems.{has_flag, is_static_method, has_no_code, type_width, argument_registers, is_number, register_count, argument_count, try_count, unit_count, tries_at, handlers_at, padding, code_fits, has_sound_code, unit_at};
ghost use Rattle.cc_dexcode.specs.Finding.{Finds};

use crate::flaw::Flaw;
use crate::rows::descriptor;
use crate::walk::ItemReader;
use cc_meaning::file::Ids;
use cc_meaning_dex::{Cursor, StatedMethod};
use cc_text::{u16_at, u32_at};
use std::alloc::Global;

/// The access flag of what is static.
const STATIC: u32 = 0x8;

/// The access flag of what is native.
const NATIVE: u32 = 0x100;

/// The access flag of what is abstract.
const ABSTRACT: u32 = 0x400;

/// `J`, the descriptor of a long.
const LONG: u16 = 74;

/// `D`, the descriptor of a double.
const DOUBLE: u16 = 68;

/// The bytes of a code item's head.
const HEAD: usize = 16;

/// Whether a method may not have code: it is native or abstract.
fn has_no_code(flags: u32) -> bool
    ensures { result ≡ has_no_code flags }
{
    flags & NATIVE != 0 || flags & ABSTRACT != 0
}

/// How many registers a parameter of a type takes.
fn type_width(ids: &Ids, row: u32) -> u16
    ensures exact { result ≡ type_width ids.now row }
    ensures few { result ≤ 2 }
{
    match descriptor(ids, row) {
        Some([LONG | DOUBLE, ..]) => 2,
        _ => 1,
    }
}

/// Whether parameters of these types and so many registers more take exactly so many.
fn fill_registers(ids: &Ids, params: &[u32], receiver: u16, registers: u16) -> bool
    ensures { result ≡ (receiver + sum_by (type_width ids.now) params.now == registers) }
{
    let mut left = registers;
    for row in params {
        let width = type_width(ids, *row);
        if left < width {
            return false;
        }
        left -= width;
    }
    left == receiver
}

/// Whether the arguments of a method take exactly so many registers.
fn takes_registers(ids: &Ids, row: u32, flags: u32, registers: u16) -> bool
    ensures { result ≡ is_number (argument_registers ids.now row flags) registers }
{
    let Some(method) = ids.methods.get(row as usize) else {
        return false;
    };
    let Some(prototype) = ids.protos.get(method.proto as usize) else {
        return false;
    };
    let receiver = if flags & STATIC != 0 { 0 } else { 1 };
    fill_registers(ids, prototype.params.as_slice(), receiver, registers)
}

/// Where the units' count and the tries' count put the tries, for the code item at `at`.
#[tactic(auto, unfolding(cc_meaning_dex::specs::CodeItems::tries_at))]
pub fn tries_at(file: &[u8], at: usize) -> usize
    requires head { Within file.now at 16 }
    requires small { at < 2 ^ 32 }
    ensures exact { result ≡ tries_at file.now at }
    ensures small { result < 2 ^ 35 }
{
    let tries = u16_at(file, at + 6);
    let units = u32_at(file, at + 12) as usize;
    let padding = if tries == 0 { 0 } else { units % 2 * 2 };
    at + HEAD + units * 2 + padding
}

/// Where the handler list of the code item at `at` stands.
#[tactic(auto, unfolding(cc_meaning_dex::specs::CodeItems::handlers_at))]
pub fn handlers_at(file: &[u8], at: usize) -> usize
    requires head { Within file.now at 16 }
    requires small { at < 2 ^ 32 }
    ensures exact { result ≡ handlers_at file.now at }
    ensures small { result < 2 ^ 36 }
{
    tries_at(file, at) + u16_at(file, at + 6) as usize * 8
}

/// Whether a code item lies in the file but for its handler list, and its arguments are the method's and among its registers.
#[tactic(auto, using(crate::proofs::Places::no_head), unfolding(cc_meaning_dex::specs::CodeItems::code_fits))]
fn code_fits(file: &[u8], ids: &Ids, method: StatedMethod) -> bool
    ensures { result ≡ code_fits file.now ids.now method }
{
    let at = method.code_at as usize;
    if at + HEAD > file.len() {
        return false;
    }
    if handlers_at(file, at) > file.len() {
        return false;
    }
    let ins = u16_at(file, at + 2);
    takes_registers(ids, method.row, method.flags, ins) && ins <= u16_at(file, at)
}

/// Whether a method has the code that it is to have.
#[tactic(auto, unfolding(cc_meaning_dex::specs::CodeItems::has_sound_code))]
pub fn has_sound_code(file: &[u8], ids: &Ids, method: StatedMethod) -> bool
    ensures { result ≡ has_sound_code file.now ids.now method }
{
    if method.code_at == 0 {
        has_no_code(method.flags)
    } else {
        !has_no_code(method.flags) && code_fits(file, ids, method)
    }
}

/// Reads units of code.
#[derive(Clone, Copy)]
pub struct UnitReader<'a> {
    pub file: &'a [u8],
}

impl ItemReader for UnitReader<'_> {
    type Item = u16;

    ghost item_at = { λ reader from. unit_at reader.file.now from };

    #[tactic(auto, unfolding(cc_meaning_dex::specs::CodeItems::unit_at))]
    fn read_item(&self, _alloc: Global, from: Cursor) -> Result<(u16, Cursor), Flaw> {
        if self.file.len() < 2 || from.at > self.file.len() - 2 {
            return Err(Flaw::Malformed);
        }
        let next = Cursor {
            at: from.at + 2,
            row: from.row,
        };
        Ok((u16_at(self.file, from.at), next))
    }
}
