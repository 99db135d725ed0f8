//! Where the tables of a file stand.

ghost use Rattle.std.specs.Prelude.{◌≡◌, ◌+◌, ◌≤◌, length, Some, None, OnOk, MatchResult};
ghost use Rattle.cc_meaning_dex.specs.Numbers.{Within};
ghost use Rattle.cc_meaning_dex.specs.Tables.{table_number, stated_at, row_bytes, row_count, table_at, row_at, IsRow, StandsInFile, HasTables, IsLaidOut};
ghost use Rattle.cc_meaning_dex.specs.Faults.{table_fault, first_of_tables};

use crate::header::HEADER;
use cc_meaning::fault::DexFault;
use cc_meaning_dex::Table;
use cc_text::u32_at;

/// The place of a table among the six.
pub fn table_number(table: Table) -> u32
    ensures { result ≡ table_number table }
{
    match table {
        Table::Texts => 0,
        Table::Types => 1,
        Table::Prototypes => 2,
        Table::Fields => 3,
        Table::Methods => 4,
        Table::Classes => 5,
    }
}

/// Where the header states a table's number of rows.
fn stated_at(table: Table) -> usize
    ensures exact { result ≡ stated_at table }
    ensures within { result + 8 ≤ HEADER }
{
    match table {
        Table::Texts => 56,
        Table::Types => 64,
        Table::Prototypes => 72,
        Table::Fields => 80,
        Table::Methods => 88,
        Table::Classes => 96,
    }
}

/// The bytes of a row.
fn row_bytes(table: Table) -> usize
    ensures exact { result ≡ row_bytes table }
    ensures few { result ≤ 32 }
{
    match table {
        Table::Texts | Table::Types => 4,
        Table::Prototypes => 12,
        Table::Fields | Table::Methods => 8,
        Table::Classes => 32,
    }
}

/// How many rows a table has.
pub fn row_count(file: &[u8], table: Table) -> u32
    requires { HEADER ≤ length file.now }
    ensures { result ≡ row_count file.now table }
{
    u32_at(file, stated_at(table))
}

/// Where a table stands.
fn table_at(file: &[u8], table: Table) -> u32
    requires { HEADER ≤ length file.now }
    ensures { result ≡ table_at file.now table }
{
    u32_at(file, stated_at(table) + 4)
}

/// Judges whether a table lies in the file.
#[tactic(auto, unfolding(cc_meaning_dex::specs::Faults::table_fault))]
fn check_table(file: &[u8], table: Table) -> Result<(), DexFault>
    requires { HEADER ≤ length file.now }
    ensures judged { MatchResult result (λ _. table_fault file.now table ≡ None) (λ fault. table_fault file.now table ≡ Some fault) }
    ensures stands { OnOk result (StandsInFile file.now table) }
{
    let count = row_count(file, table) as usize;
    let at = table_at(file, table);
    if count > 0 && at as usize + count * row_bytes(table) > file.len() {
        return Err(DexFault::OutOfFile { at });
    }
    Ok(())
}

/// Judges whether each table lies in the file.
pub fn check_tables(file: &[u8]) -> Result<(), DexFault>
    requires { HEADER ≤ length file.now }
    ensures judged { MatchResult result
        (λ _. first_of_tables (table_fault file.now) ≡ None)
        (λ fault. first_of_tables (table_fault file.now) ≡ Some fault) }
    ensures stand { OnOk result (HasTables file.now) }
{
    check_table(file, Table::Texts)?;
    check_table(file, Table::Types)?;
    check_table(file, Table::Prototypes)?;
    check_table(file, Table::Fields)?;
    check_table(file, Table::Methods)?;
    check_table(file, Table::Classes)?;
    Ok(())
}

/// Where a row stands.
pub fn row_at(file: &[u8], table: Table, row: u32) -> usize
    requires laid_out { IsLaidOut file.now }
    requires row { IsRow file.now table row }
    ensures exact { result ≡ row_at file.now table row }
    ensures within { Within file.now result (row_bytes table) }
{
    table_at(file, table) as usize + row as usize * row_bytes(table)
}
