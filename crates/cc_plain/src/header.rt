//! The header of a file and its tables.

ghost use Rattle.std.specs.Prelude.{◌≡◌, ◌+◌, ◌≤◌, ◌↔◌, IsTrue, length};
ghost use Rattle.cc_meaning_dex.specs.Numbers.{Within, Stands};
ghost use Rattle.cc_meaning_plain.specs.Tables.{stated_at, row_bytes, row_count, table_at, row_at, IsHeader, HasTables, IsRow, StandsInFile};

use cc_meaning_plain::Table;
use cc_text::u32_at;

/// Whether these bytes stand at `at`.
pub fn begins(file: &[u8], at: usize, part: &[u8]) -> bool
    ensures { IsTrue result ↔ Stands file.now at part.now }
{
    if at > file.len() {
        return part.is_empty();
    }
    let rest = &file[at..];
    if part.len() > rest.len() {
        return false;
    }
    &rest[..part.len()] == part
}

/// Whether the file begins with a header of version 035 that states the file's own length. Checksum and signature are not looked at.
pub fn has_header(file: &[u8]) -> bool
    ensures { IsTrue result ↔ IsHeader file.now }
{
    if file.len() < 112 {
        return false;
    }
    if !begins(file, 0, b"dex\n035\0") {
        return false;
    }
    u32_at(file, 32) as usize == file.len()
        && u32_at(file, 36) == 112
        && u32_at(file, 40) == 0x1234_5678
}

/// Where the header states a table's number of rows.
pub fn stated_at(table: Table) -> usize
    ensures exact { result ≡ stated_at table }
    ensures within { result + 8 ≤ 112 }
{
    match table {
        Table::Texts => 56,
        Table::Types => 64,
        Table::Prototypes => 72,
        Table::Fields => 80,
        Table::Methods => 88,
        Table::Classes => 96,
    }
}

/// The bytes of a row.
pub fn row_bytes(table: Table) -> usize
    ensures exact { result ≡ row_bytes table }
    ensures few { result ≤ 32 }
{
    match table {
        Table::Texts | Table::Types => 4,
        Table::Prototypes => 12,
        Table::Fields | Table::Methods => 8,
        Table::Classes => 32,
    }
}

/// How many rows a table has.
pub fn row_count(file: &[u8], table: Table) -> u32
    requires { IsHeader file.now }
    ensures { result ≡ row_count file.now table }
{
    u32_at(file, stated_at(table))
}

/// Where a table stands.
pub fn table_at(file: &[u8], table: Table) -> u32
    requires { IsHeader file.now }
    ensures { result ≡ table_at file.now table }
{
    u32_at(file, stated_at(table) + 4)
}

/// Whether a table lies in the file.
pub fn stands_in_file(file: &[u8], table: Table) -> bool
    requires { IsHeader file.now }
    ensures { IsTrue result ↔ StandsInFile file.now table }
{
    let count = row_count(file, table) as usize;
    count == 0 || table_at(file, table) as usize + count * row_bytes(table) <= file.len()
}

/// Whether each table lies in the file.
pub fn has_tables(file: &[u8]) -> bool
    requires { IsHeader file.now }
    ensures { IsTrue result ↔ HasTables file.now }
{
    stands_in_file(file, Table::Texts)
        && stands_in_file(file, Table::Types)
        && stands_in_file(file, Table::Prototypes)
        && stands_in_file(file, Table::Fields)
        && stands_in_file(file, Table::Methods)
        && stands_in_file(file, Table::Classes)
}

/// Where a row stands.
pub fn row_at(file: &[u8], table: Table, row: u32) -> usize
    requires header { IsHeader file.now }
    requires tables { HasTables file.now }
    requires row { IsRow file.now table row }
    ensures exact { result ≡ row_at file.now table row }
    ensures within { Within file.now result (row_bytes table) }
{
    table_at(file, table) as usize + row as usize * row_bytes(table)
}
