//! Items that stand one after the other are read in order.

ghost use Rattle.std.specs.Prelude.{Option};
ghost use Rattle.cc_meaning_dex.specs.declared.items.Cursor.{Cursor};
ghost use Rattle.cc_meaning_dex.specs.Sequences.{items_from, list_at};
ghost use Rattle.cc_dexcode.specs.Finding.{Finds};

use crate::flaw::Flaw;
use cc_list::List;
use cc_meaning_dex::Cursor;
use std::alloc::Global;

/// What reads the items of one list.
pub trait ItemReader {
    /// An item of the list.
    type Item: Drop;

    /// What must hold of the reader for it to read.
    ghost readable: { Self → Type 0 } = { λ _. Unit {0} };

    /// The item that stands at a place, and where the next one begins.
    ghost item_at: { Self → Cursor → Option (Self.Item × Cursor) };

    /// Reads the item at a place, and says where the next one begins.
    fn read_item(&self, alloc: Global, from: Cursor) -> Result<(Self::Item, Cursor), Flaw>
        requires { readable self.now }
        ensures { Finds (item_at self.now from) result };
}

/// Reads so many items from `from` on, each where the one before it ends, and says where the last ends. A count takes no memory: items do, one by one.
fn read_items<R: ItemReader>(
    alloc: Global,
    reader: &R,
    count: u32,
    from: Cursor,
) -> Result<(List<R::Item>, Cursor), Flaw>
    requires { R.readable reader.now }
    ensures { Finds (items_from (R.item_at reader.now) count from) result }
{
    let mut items = List::new(alloc);
    let mut place = from;
    for _ in 0..count {
        let (item, next) = reader.read_item(alloc, place)?;
        items.push(item)?;
        place = next;
    }
    Ok((items, place))
}

/// Reads so many items from the place `at` on, and says where the last ends.
pub fn read_list<R: ItemReader>(
    alloc: Global,
    reader: &R,
    count: u32,
    at: usize,
) -> Result<(List<R::Item>, usize), Flaw>
    requires { R.readable reader.now }
    ensures { Finds (list_at (R.item_at reader.now) count at) result }
{
    let (items, end) = read_items(alloc, reader, count, Cursor { at, row: 0 })?;
    Ok((items, end.at))
}
