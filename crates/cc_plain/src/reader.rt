//! Plain files, read whole.

ghost use Rattle.std.specs.Prelude.{◌≡◌, ◌≢◌, ◌↔◌, ℕ, List, IsTrue, IfOk, MatchOption};
ghost use Rattle.cc_meaning_plain.specs.declared.plain.Member.{Member};
ghost use Rattle.cc_meaning_plain.specs.declared.plain.PlainFunction.{PlainFunction};
ghost use Rattle.cc_meaning_plain.specs.declared.plain.Plain.{Plain};
ghost use Rattle.cc_meaning_plain.specs.Plain.{IsPlain};
ghost use Rattle.cc_plain.specs.Class.{HasOneClass, IsClass, HasFunctions};

use super::code::read_code;
use super::functions::in_order;
use super::header::{has_header, has_tables, row_at, row_count};
use super::kind::{Kind, Known};
use super::members::{is_class_descriptor, read_members};
use super::methods::{Methods, read_methods};
use super::names::class_name;
use cc_meaning::lists::Units;
use cc_meaning_plain::{
    Member, Plain, PlainFunctions, Table, law_data_once, law_methods_agree, law_methods_once,
    law_order_once, law_type_once,
};
use cc_text::u32_at;
use std::alloc::{AllocError, Global};

/// The longest file that is read.
const LONGEST_FILE: usize = 8_388_608;

/// Whether a file has one class, which has members and no static values.
fn has_one_class(file: &[u8]) -> bool
    ensures { IsTrue result ↔ HasOneClass file.now }
{
    if file.len() > LONGEST_FILE || !has_header(file) {
        return false;
    }
    if !has_tables(file) || row_count(file, Table::Classes) != 1 {
        return false;
    }
    let class = row_at(file, Table::Classes, 0);
    u32_at(file, class + 28) == 0 && u32_at(file, class + 24) != 0
}

/// The descriptor of the one class.
fn read_class(alloc: Global, file: &[u8]) -> Result<Option<Units>, AllocError>
    requires { HasOneClass file.now }
    ensures { IfOk result (λ read. MatchOption read
        ((name : List ℕ) → IsClass file.now name → ⊥)
        (λ name. IsClass file.now name)) }
{
    law_type_once();
    let row = u32_at(file, row_at(file, Table::Classes, 0));
    let Some(name) = class_name(alloc, file, row)? else {
        return Ok(None);
    };
    if !is_class_descriptor(name.as_slice()) {
        return Ok(None);
    }
    Ok(Some(name))
}

/// The `main` of the class, and the class with its functions in the order of their names.
fn read_functions(
    alloc: Global,
    file: &[u8],
    class: Units,
) -> Result<Option<(Member, Known)>, AllocError>
    requires { HasOneClass file.now }
    ensures { IfOk result (λ read. MatchOption read
        ((main : Member) (functions : List PlainFunction) → HasFunctions file.now class main functions → ⊥)
        (λ read. (read.1.class ≡ class) × HasFunctions file.now class read.0 read.1.functions)) }
{
    law_data_once();
    law_methods_once();
    let data = u32_at(file, row_at(file, Table::Classes, 0) + 24);
    let Some(members) = read_members(alloc, file, data)? else {
        return Ok(None);
    };
    let alone = Known {
        class,
        functions: PlainFunctions::new(alloc),
    };
    let Some(methods) = read_methods(alloc, file, &alone, members.as_slice())? else {
        return Ok(None);
    };
    let Methods { main, functions } = methods;
    let Some(functions) = in_order(functions)? else {
        return Ok(None);
    };
    let Known { class, .. } = alone;
    Ok(Some((main, Known { class, functions })))
}

/// The plain file that these bytes are, or `None` where they are none. Only want of memory makes it fail.
pub fn read_plain(alloc: Global, file: &[u8]) -> Result<Option<Plain>, AllocError>
    ensures { IfOk result (λ read. MatchOption read
        ((plain : Plain) → IsPlain file.now plain → ⊥)
        (λ plain. IsPlain file.now plain)) }
{
    law_type_once();
    law_data_once();
    law_methods_once();
    law_methods_agree();
    law_order_once();
    if !has_one_class(file) {
        return Ok(None);
    }
    let Some(class) = read_class(alloc, file)? else {
        return Ok(None);
    };
    let Some((main, known)) = read_functions(alloc, file, class)? else {
        return Ok(None);
    };
    let Some(main) = read_code(alloc, file, &known, Kind::Main, main.code_at)? else {
        return Ok(None);
    };
    let Known { class, functions } = known;
    Ok(Some(Plain {
        class,
        main,
        functions,
    }))
}
