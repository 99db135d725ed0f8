//! Tries with their handlers.

ghost use Rattle.std.specs.Prelude.{◌≡◌, ◌≤◌, ◌<◌, ◌^◌, length, MatchOption, None, Some};
ghost use Rattle.cc_meaning_dex.specs.Numbers.{Within};
ghost use Rattle.cc_meaning_dex.specs.Tries.{is_value_type, pair_at, catch_all_at, handler_at, handlers_of, RisesFrom, catches_at, try_at, some_tries_of, tries_of};
ghost use Rattle.cc_dexcode.specs.Finding.{Finds};

use crate::code::{handlers_at, tries_at};
use crate::flaw::Flaw;
use crate::numbers::{number, signed_number};
use crate::rows::descriptor;
use crate::walk::{ItemReader, read_list};
use cc_list::List;
use cc_meaning::file::{Ids, RawCatch, RawCatches, RawTries, RawTry};
use cc_meaning_dex::{Cursor, Handler, handlers_rise};
use cc_text::{u16_at, u32_at};
use std::alloc::Global;

/// `V`, the descriptor of no value.
const VOID: u16 = 86;

/// Whether there is such a row of types, and it isn't V.
fn is_value_type(ids: &Ids, row: u32) -> bool
    ensures { result ≡ is_value_type ids.now row }
{
    match descriptor(ids, row) {
        Some(units) => !matches!(units, [VOID, ..]),
        None => false,
    }
}

/// Reads pairs of a type's row and an address.
#[derive(Clone, Copy)]
struct PairReader<'a> {
    file: &'a [u8],
    ids: &'a Ids,
}

impl ItemReader for PairReader<'_> {
    type Item = RawCatch;

    ghost item_at = { λ reader from. pair_at reader.file.now reader.ids.now from };

    #[tactic(auto, unfolding(cc_meaning_dex::specs::Tries::pair_at))]
    fn read_item(&self, _alloc: Global, from: Cursor) -> Result<(RawCatch, Cursor), Flaw> {
        let (row, address_at) = number(self.file, from.at)?;
        let (at, next) = number(self.file, address_at)?;
        if !is_value_type(self.ids, row) {
            return Err(Flaw::Malformed);
        }
        let catch = RawCatch { row: Some(row), at };
        Ok((
            catch,
            Cursor {
                at: next,
                row: from.row,
            },
        ))
    }
}

/// Reads handlers.
#[derive(Clone, Copy)]
struct HandlerReader<'a> {
    file: &'a [u8],
    ids: &'a Ids,
}

impl ItemReader for HandlerReader<'_> {
    type Item = Handler;

    ghost item_at = { λ reader from. handler_at reader.file.now reader.ids.now from };

    #[tactic(auto, unfolding(cc_meaning_dex::specs::Tries::handler_at))]
    fn read_item(&self, alloc: Global, from: Cursor) -> Result<(Handler, Cursor), Flaw> {
        let (size, pairs_at) = signed_number(self.file, from.at)?;
        let pairs = PairReader {
            file: self.file,
            ids: self.ids,
        };
        let (pairs, rest_at) = read_list(alloc, &pairs, size.unsigned_abs(), pairs_at)?;
        let (catches, next) = with_catch_all(self.file, size, pairs, rest_at)?;
        let handler = Handler {
            start: from.at,
            catches,
        };
        Ok((
            handler,
            Cursor {
                at: next,
                row: from.row,
            },
        ))
    }
}

/// The pairs of a handler of this size, and behind them what takes all, where the size isn't positive; and the place after the handler.
#[tactic(auto, unfolding(cc_meaning_dex::specs::Tries::catch_all_at))]
fn with_catch_all(
    file: &[u8],
    size: i32,
    pairs: RawCatches,
    at: usize,
) -> Result<(RawCatches, usize), Flaw>
    ensures { Finds (catch_all_at file.now size pairs at) result }
{
    let mut catches = pairs;
    if size > 0 {
        return Ok((catches, at));
    }
    let (address, next) = number(file, at)?;
    catches.push(RawCatch {
        row: None,
        at: address,
    })?;
    Ok((catches, next))
}

/// The handlers of the handler list at `at`.
#[tactic(auto, unfolding(cc_meaning_dex::specs::Tries::handlers_of))]
fn read_handlers(alloc: Global, file: &[u8], ids: &Ids, at: usize) -> Result<List<Handler>, Flaw>
    ensures { Finds (handlers_of file.now ids.now at) result }
{
    let (count, place) = number(file, at)?;
    let (handlers, _) = read_list(alloc, &HandlerReader { file, ids }, count, place)?;
    Ok(handlers)
}

/// What the handler catches that begins at a place, where one does.
fn find_catches(handlers: &List<Handler>, start: usize) -> Option<&RawCatches>
    requires { RisesFrom 0 handlers.now }
    ensures { MatchOption result (catches_at handlers.now start ≡ None) (λ catches. catches_at handlers.now start ≡ Some catches.now) }
{
    let handlers = handlers.as_slice();
    match handlers.binary_search_by_key(&start, |handler| handler.start) {
        Ok(place) => Some(&handlers[place].catches),
        Err(_) => None,
    }
}

/// Reads tries of code of so many units, by the handlers of the handler list at `list`.
#[derive(Clone, Copy)]
struct TryReader<'a> {
    file: &'a [u8],
    units: u32,
    list: usize,
    handlers: &'a List<Handler>,
}

impl ItemReader for TryReader<'_> {
    type Item = RawTry;

    ghost readable = { λ reader. (RisesFrom 0 reader.handlers.now) × (reader.list < 2 ^ 36) };

    ghost item_at = { λ reader from. try_at reader.file.now reader.units reader.list reader.handlers.now from };

    #[tactic(auto, unfolding(cc_meaning_dex::specs::Tries::try_at))]
    fn read_item(&self, _alloc: Global, from: Cursor) -> Result<(RawTry, Cursor), Flaw> {
        if self.file.len() < 8 || from.at > self.file.len() - 8 {
            return Err(Flaw::Malformed);
        }
        let start = u32_at(self.file, from.at);
        let count = u32::from(u16_at(self.file, from.at + 4));
        if self.units < start || self.units - start < count {
            return Err(Flaw::Malformed);
        }
        let handler_at = self.list + u16_at(self.file, from.at + 6) as usize;
        let Some(catches) = find_catches(self.handlers, handler_at) else {
            return Err(Flaw::Malformed);
        };
        let covered = RawTry {
            start,
            end: start + count,
            catches: catches.copy()?,
        };
        let next = Cursor {
            at: from.at + 8,
            row: from.row,
        };
        Ok((covered, next))
    }
}

/// The tries of the code item at `at`, and with them its handler list, where it has some.
#[tactic(auto, unfolding(cc_meaning_dex::specs::Tries::tries_of))]
pub fn read_tries(alloc: Global, file: &[u8], ids: &Ids, at: usize) -> Result<RawTries, Flaw>
    requires head { Within file.now at 16 }
    requires small { at < 2 ^ 32 }
    ensures { Finds (tries_of file.now ids.now at) result }
{
    if u16_at(file, at + 6) == 0 {
        return Ok(RawTries::new(alloc));
    }
    read_some_tries(alloc, file, ids, at)
}

/// The tries of the code item at `at`, which has some.
#[tactic(auto, unfolding(cc_meaning_dex::specs::Tries::some_tries_of))]
fn read_some_tries(alloc: Global, file: &[u8], ids: &Ids, at: usize) -> Result<RawTries, Flaw>
    requires head { Within file.now at 16 }
    requires small { at < 2 ^ 32 }
    ensures { Finds (some_tries_of file.now ids.now at) result }
{
    handlers_rise();
    let list = handlers_at(file, at);
    let handlers = read_handlers(alloc, file, ids, list)?;
    let reader = TryReader {
        file,
        units: u32_at(file, at + 12),
        list,
        handlers: &handlers,
    };
    let count = u32::from(u16_at(file, at + 6));
    let (tries, _) = read_list(alloc, &reader, count, tries_at(file, at))?;
    Ok(tries)
}
