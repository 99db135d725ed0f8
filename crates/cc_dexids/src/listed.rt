//! Lists of types.

ghost use Rattle.std.specs.Prelude.{◌≡◌, ◌+◌, ◌*◌, IfOk, map};
ghost use Rattle.std.specs.List.{range_with_len};
ghost use Rattle.cc_meaning_dex.specs.Numbers.{Within, u16_at};
ghost use Rattle.cc_meaning_dex.specs.Faults.{Reads, list_fault, listed_types};

use cc_meaning::fault::DexFault;
use cc_meaning::lists::Rows;
use cc_text::{u16_at, u32_at};
use std::alloc::{AllocError, Global};

/// The rows of the types that are listed at the offset `at`, none at offset 0.
#[tactic(auto, unfolding(cc_meaning_dex::specs::Faults::list_fault, cc_meaning_dex::specs::Faults::listed_types))]
pub fn read_types(alloc: Global, file: &[u8], at: u32) -> Result<Rows, DexFault>
    ensures { Reads (list_fault file.now at) (λ rows. rows ≡ listed_types file.now at) result }
{
    if at == 0 {
        return Ok(Rows::new(alloc));
    }
    let start = at as usize + 4;
    if start > file.len() {
        return Err(DexFault::OutOfFile { at });
    }
    let count = u32_at(file, at as usize) as usize;
    if start + count * 2 > file.len() {
        return Err(DexFault::OutOfFile { at });
    }
    let rows = read_rows(alloc, file, start, count)?;
    Ok(rows)
}

/// So many rows of 16 bits each, from `start` on.
fn read_rows(alloc: Global, file: &[u8], start: usize, count: usize) -> Result<Rows, AllocError>
    requires { Within file.now start (count * 2) }
    ensures { IfOk result (λ rows. rows ≡ map (λ k. u16_at file.now (start + k * 2)) (range_with_len 0 count)) }
{
    let mut rows = Vec::with_capacity(alloc, count)?;
    for k in 0..count {
        rows.push(u32::from(u16_at(file, start + k * 2)))?;
    }
    Ok(Rows::from_vec(rows))
}
