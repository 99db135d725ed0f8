//! A table is read row by row.

ghost use Rattle.std.specs.Prelude.{◌≡◌, ◌<◌, ℕ, Option};
ghost use Rattle.cc_meaning.specs.declared.fault.DexFault.{DexFault};
ghost use Rattle.cc_meaning_dex.specs.Faults.{Reads, first_below};
ghost use Rattle.cc_meaning_dex.specs.Ids.{EachSpelled};

use cc_list::List;
use cc_meaning::fault::DexFault;
use std::alloc::Global;

/// What reads the rows of one table.
pub trait RowReader {
    /// A row of the table.
    type Row: Drop;

    /// What must hold for the row to be read.
    ghost readable: { Self → ℕ → Type 0 };

    /// The fault of a row.
    ghost fault: { Self → ℕ → Option DexFault };

    /// What a row spells.
    ghost spelled: { Self → ℕ → Self.Row → Type 0 };

    /// Reads a row, or answers its fault.
    fn read_row(&self, alloc: Global, row: u32) -> Result<Self::Row, DexFault>
        requires { readable self.now row }
        ensures { Reads (fault self.now row) (spelled self.now row) result };
}

/// Reads so many rows in order, up to the first that has a fault.
pub fn read_table<R: RowReader>(
    alloc: Global,
    reader: &R,
    count: u32,
) -> Result<List<R::Row>, DexFault>
    requires { (row : ℕ) → row < count → R.readable reader.now row }
    ensures { Reads
        (first_below (R.fault reader.now) count)
        (λ rows. EachSpelled rows count (R.spelled reader.now))
        result }
{
    let mut rows = List::new(alloc);
    for row in 0..count {
        let read = reader.read_row(alloc, row)?;
        rows.push(read)?;
    }
    Ok(rows)
}
