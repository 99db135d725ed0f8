//! What the rows of a file name.

ghost use Rattle.std.specs.Prelude.{◌≡◌, ◌+◌, ◌≤◌, ◌↔◌, ◌∷◌, ◌++◌, [], ℕ, List, IsTrue, IfOk, MatchOption, length, codes};
ghost use Rattle.cc_meaning_dex.specs.Numbers.{u16_at, u32_at, Within, Stands};
ghost use Rattle.cc_meaning_dex.specs.Texts.{SpellsText};
ghost use Rattle.cc_meaning_plain.specs.Tables.{row_at, IsRow, IsHeader, HasTables};
ghost use Rattle.cc_meaning_plain.specs.Names.{TextRow, TypeRow, OneType, PrototypeRow, FieldRow, MethodRow, IsOutField, IsPrintln, IsMain, IsFunction};
ghost use Rattle.cc_plain.specs.Ascii.{IsAsciiName};

use super::header::{begins, row_at, row_count};
use cc_meaning::fault::TextFault;
use cc_meaning::lists::Units;
use cc_meaning_dex::one_uleb;
use cc_meaning_plain::{Table, law_type_once};
use cc_text::{text, u16_at, u32_at, uleb};
use std::alloc::{AllocError, Global};

/// Whether these bytes and a zero byte stand at `at`.
fn stands_ended(file: &[u8], at: usize, name: &[u8]) -> bool
    ensures { IsTrue result ↔ Stands file.now at (name.now ++ 0 ∷ []) }
{
    if !begins(file, at, name) {
        return false;
    }
    let end = at + name.len();
    end < file.len() && file[end] == 0
}

/// Whether the text item at `at` is this name. The item is compared where it stands.
fn is_text(file: &[u8], at: u32, name: &[u8]) -> bool
    requires { IsAsciiName name.now }
    ensures { IsTrue result ↔ SpellsText file.now at name.now }
{
    one_uleb();
    let Ok((count, place)) = uleb(file, at as usize) else {
        return false;
    };
    if count as usize != name.len() {
        return false;
    }
    stands_ended(file, place, name)
}

/// Whether a row of texts is this name.
fn is_text_row(file: &[u8], row: u32, name: &[u8]) -> bool
    requires header { IsHeader file.now }
    requires tables { HasTables file.now }
    requires ascii { IsAsciiName name.now }
    ensures { IsTrue result ↔ TextRow file.now row name.now }
{
    if row >= row_count(file, Table::Texts) {
        return false;
    }
    is_text(file, u32_at(file, row_at(file, Table::Texts, row)), name)
}

/// Whether a row of types has this descriptor.
fn is_type_row(file: &[u8], row: u32, name: &[u8]) -> bool
    requires header { IsHeader file.now }
    requires tables { HasTables file.now }
    requires ascii { IsAsciiName name.now }
    ensures { IsTrue result ↔ TypeRow file.now row name.now }
{
    if row >= row_count(file, Table::Types) {
        return false;
    }
    is_text_row(file, u32_at(file, row_at(file, Table::Types, row)), name)
}

/// Whether at `at` stands a list of this one type.
fn is_one_type(file: &[u8], at: u32, name: &[u8]) -> bool
    requires header { IsHeader file.now }
    requires tables { HasTables file.now }
    requires ascii { IsAsciiName name.now }
    ensures { IsTrue result ↔ OneType file.now at name.now }
{
    let at = at as usize;
    if at == 0 || at + 6 > file.len() || u32_at(file, at) != 1 {
        return false;
    }
    is_type_row(file, u32::from(u16_at(file, at + 4)), name)
}

/// Whether a row of prototypes gives this type, and takes this one type.
fn is_prototype_row(file: &[u8], row: u32, gives: &[u8], takes: &[u8]) -> bool
    requires header { IsHeader file.now }
    requires tables { HasTables file.now }
    requires ascii_gives { IsAsciiName gives.now }
    requires ascii_takes { IsAsciiName takes.now }
    ensures { IsTrue result ↔ PrototypeRow file.now row gives.now takes.now }
{
    if row >= row_count(file, Table::Prototypes) {
        return false;
    }
    let at = row_at(file, Table::Prototypes, row);
    is_type_row(file, u32_at(file, at + 4), gives) && is_one_type(file, u32_at(file, at + 8), takes)
}

/// Whether a row of fields has this class, type and name.
fn is_field_row(file: &[u8], row: u16, class: &[u8], kind: &[u8], name: &[u8]) -> bool
    requires header { IsHeader file.now }
    requires tables { HasTables file.now }
    requires ascii_class { IsAsciiName class.now }
    requires ascii_kind { IsAsciiName kind.now }
    requires ascii_name { IsAsciiName name.now }
    ensures { IsTrue result ↔ FieldRow file.now row class.now kind.now name.now }
{
    let row = u32::from(row);
    if row >= row_count(file, Table::Fields) {
        return false;
    }
    let at = row_at(file, Table::Fields, row);
    if !is_type_row(file, u32::from(u16_at(file, at)), class) {
        return false;
    }
    is_type_row(file, u32::from(u16_at(file, at + 2)), kind)
        && is_text_row(file, u32_at(file, at + 4), name)
}

/// Whether a row of methods has this result, one parameter and name, whatever its class.
fn has_form(file: &[u8], row: u32, gives: &[u8], takes: &[u8], name: &[u8]) -> bool
    requires header { IsHeader file.now }
    requires tables { HasTables file.now }
    requires row { IsRow file.now Table.Methods row }
    requires ascii_gives { IsAsciiName gives.now }
    requires ascii_takes { IsAsciiName takes.now }
    requires ascii_name { IsAsciiName name.now }
    ensures { IsTrue result
        ↔ (PrototypeRow file.now (u16_at file.now (row_at file.now Table.Methods row + 2)) gives.now takes.now
        × TextRow file.now (u32_at file.now (row_at file.now Table.Methods row + 4)) name.now) }
{
    let at = row_at(file, Table::Methods, row);
    is_prototype_row(file, u32::from(u16_at(file, at + 2)), gives, takes)
        && is_text_row(file, u32_at(file, at + 4), name)
}

/// Whether a row of methods has this class, result, one parameter and name.
fn is_method_row(
    file: &[u8],
    row: u16,
    class: &[u8],
    gives: &[u8],
    takes: &[u8],
    name: &[u8],
) -> bool
    requires header { IsHeader file.now }
    requires tables { HasTables file.now }
    requires ascii_class { IsAsciiName class.now }
    requires ascii_gives { IsAsciiName gives.now }
    requires ascii_takes { IsAsciiName takes.now }
    requires ascii_name { IsAsciiName name.now }
    ensures { IsTrue result ↔ MethodRow file.now row class.now gives.now takes.now name.now }
{
    let row = u32::from(row);
    if row >= row_count(file, Table::Methods) {
        return false;
    }
    let at = row_at(file, Table::Methods, row);
    is_type_row(file, u32::from(u16_at(file, at)), class) && has_form(file, row, gives, takes, name)
}

/// Whether a row of fields is `System.out`.
pub fn is_out_field(file: &[u8], row: u16) -> bool
    requires header { IsHeader file.now }
    requires tables { HasTables file.now }
    ensures { IsTrue result ↔ IsOutField file.now row }
{
    is_field_row(
        file,
        row,
        b"Ljava/lang/System;",
        b"Ljava/io/PrintStream;",
        b"out",
    )
}

/// Whether a row of methods is `println(int)` of PrintStream.
pub fn is_println(file: &[u8], row: u16) -> bool
    requires header { IsHeader file.now }
    requires tables { HasTables file.now }
    ensures { IsTrue result ↔ IsPrintln file.now row }
{
    is_method_row(file, row, b"Ljava/io/PrintStream;", b"V", b"I", b"println")
}

/// The text item at `at`, where there is one.
fn text_item(alloc: Global, file: &[u8], at: u32) -> Result<Option<Units>, AllocError>
    ensures { IfOk result (λ read. MatchOption read
        ((units : List ℕ) → SpellsText file.now at units → ⊥)
        (λ units. SpellsText file.now at units)) }
{
    match text(alloc, file, at as usize) {
        Ok(units) => Ok(Some(Units::from_vec(units))),
        Err(fault) => match fault {
            TextFault::Memory => Err(AllocError),
            _ => Ok(None),
        },
    }
}

/// The text of a row of texts, where it has one.
fn text_row(alloc: Global, file: &[u8], row: u32) -> Result<Option<Units>, AllocError>
    requires header { IsHeader file.now }
    requires tables { HasTables file.now }
    ensures { IfOk result (λ read. MatchOption read
        ((units : List ℕ) → TextRow file.now row units → ⊥)
        (λ units. TextRow file.now row units)) }
{
    if row >= row_count(file, Table::Texts) {
        return Ok(None);
    }
    text_item(alloc, file, u32_at(file, row_at(file, Table::Texts, row)))
}

/// The descriptor of a row of types, where it has one.
pub fn class_name(alloc: Global, file: &[u8], row: u32) -> Result<Option<Units>, AllocError>
    requires header { IsHeader file.now }
    requires tables { HasTables file.now }
    ensures { IfOk result (λ read. MatchOption read
        ((units : List ℕ) → TypeRow file.now row units → ⊥)
        (λ units. TypeRow file.now row units)) }
{
    if row >= row_count(file, Table::Types) {
        return Ok(None);
    }
    text_row(alloc, file, u32_at(file, row_at(file, Table::Types, row)))
}

/// Whether a row of types has this descriptor, of any units.
fn is_named(alloc: Global, file: &[u8], row: u32, name: &[u16]) -> Result<bool, AllocError>
    requires header { IsHeader file.now }
    requires tables { HasTables file.now }
    ensures { IfOk result (λ is. IsTrue is ↔ TypeRow file.now row name.now) }
{
    law_type_once();
    let Some(found) = class_name(alloc, file, row)? else {
        return Ok(false);
    };
    Ok(found.as_slice() == name)
}

/// Whether a row of methods is the `main` of this class, which it belongs to by name.
pub fn is_main(alloc: Global, file: &[u8], class: &[u16], row: u32) -> Result<bool, AllocError>
    requires header { IsHeader file.now }
    requires tables { HasTables file.now }
    ensures { IfOk result (λ is. IsTrue is ↔ IsMain file.now class.now row) }
{
    if row >= row_count(file, Table::Methods) {
        return Ok(false);
    }
    let at = row_at(file, Table::Methods, row);
    if !is_named(alloc, file, u32::from(u16_at(file, at)), class)? {
        return Ok(false);
    }
    Ok(has_form(file, row, b"V", b"[Ljava/lang/String;", b"main"))
}

/// The text of a row of texts, where it has one, and the types of a function behind it.
fn typed_text_row(alloc: Global, file: &[u8], row: u32) -> Result<Option<Units>, AllocError>
    requires header { IsHeader file.now }
    requires tables { HasTables file.now }
    ensures { IfOk result (λ read. MatchOption read
        ((units : List ℕ) → TextRow file.now row units → ⊥)
        (λ typed. (units : List ℕ) × TextRow file.now row units × (typed ≡ units ++ codes "(I)I"))) }
{
    let Some(mut units) = text_row(alloc, file, row)? else {
        return Ok(None);
    };
    units.extend_from_slice(&[40, 73, 41, 73])?;
    Ok(Some(units))
}

/// The name, with its types, of a row of methods that is a function of this class, to which it belongs by name.
pub fn function_name(
    alloc: Global,
    file: &[u8],
    class: &[u16],
    row: u32,
) -> Result<Option<Units>, AllocError>
    requires header { IsHeader file.now }
    requires tables { HasTables file.now }
    ensures { IfOk result (λ read. MatchOption read
        ((name : List ℕ) → IsFunction file.now class.now row name → ⊥)
        (λ name. IsFunction file.now class.now row name)) }
{
    if row >= row_count(file, Table::Methods) {
        return Ok(None);
    }
    let at = row_at(file, Table::Methods, row);
    let type_row = u32::from(u16_at(file, at));
    if !is_named(alloc, file, type_row, class)? {
        return Ok(None);
    }
    if !is_prototype_row(file, u32::from(u16_at(file, at + 2)), b"I", b"I") {
        return Ok(None);
    }
    typed_text_row(alloc, file, u32_at(file, at + 4))
}
