//! The methods of a plain file: its `main`, and its functions.

ghost use Rattle.std.specs.Prelude.{◌≡◌, ◌↔◌, [], ℕ, List, Some, IsTrue, IfOk, MatchOption};
ghost use Rattle.cc_meaning_plain.specs.declared.plain.Member.{Member};
ghost use Rattle.cc_meaning_plain.specs.declared.plain.PlainFunction.{PlainFunction};
ghost use Rattle.cc_meaning_plain.specs.Tables.{IsHeader, HasTables};
ghost use Rattle.cc_meaning_plain.specs.Plain.{IsOrdinaryName, IsFunctionMember};
ghost use Rattle.cc_meaning_plain.specs.Methods.{alone, IsCalledMain, AreMethods};
ghost use Rattle.cc_plain.specs.Code.{scope_in};

use super::code::read_code;
use super::kind::{Kind, Known};
use super::members::is_static_code;
use super::names::{function_name, is_main};
use cc_meaning_plain::{
    Member, PlainFunction, PlainFunctions, law_main_is_no_function, law_methods_once, law_name_once,
};
use std::alloc::{AllocError, Global};

/// The methods that a class lists: its `main`, whose code isn't read yet, and its functions in the order of the list.
#[derive(Drop)]
pub struct Methods {
    pub main: Member,
    pub functions: PlainFunctions,
}

/// Whether a function's name isn't that of a constructor, `<init>(I)I`, or an initialiser, `<clinit>(I)I`.
fn is_ordinary(name: &[u16]) -> bool
    ensures { IsTrue result ↔ IsOrdinaryName name.now }
{
    let constructor: &[u16] = &[60, 105, 110, 105, 116, 62, 40, 73, 41, 73];
    let initialiser: &[u16] = &[60, 99, 108, 105, 110, 105, 116, 62, 40, 73, 41, 73];
    name != constructor && name != initialiser
}

/// Whether a method is a static `main` of the class.
fn is_called_main(
    alloc: Global,
    file: &[u8],
    class: &[u16],
    member: Member,
) -> Result<bool, AllocError>
    requires header { IsHeader file.now }
    requires tables { HasTables file.now }
    ensures { IfOk result (λ is. IsTrue is ↔ IsCalledMain file.now class.now member) }
{
    let named = is_main(alloc, file, class, member.method)?;
    Ok(named && is_static_code(member.flags))
}

/// The function that a method of the class is.
fn read_function(
    alloc: Global,
    file: &[u8],
    known: &Known,
    member: Member,
) -> Result<Option<PlainFunction>, AllocError>
    requires header { IsHeader file.now }
    requires tables { HasTables file.now }
    requires no_other { known.now.functions ≡ [] }
    ensures { IfOk result (λ read. MatchOption read
        ((function : PlainFunction) → IsFunctionMember file.now (alone known.now.class) member function → ⊥)
        (λ function. IsFunctionMember file.now (alone known.now.class) member function)) }
{
    law_name_once();
    if !is_static_code(member.flags) {
        return Ok(None);
    }
    let Some(name) = function_name(alloc, file, known.class.as_slice(), member.method)? else {
        return Ok(None);
    };
    if !is_ordinary(name.as_slice()) {
        return Ok(None);
    }
    let Some(code) = read_code(alloc, file, known, Kind::Function, member.code_at)? else {
        return Ok(None);
    };
    Ok(Some(PlainFunction { name, code }))
}

/// The methods of a class, one `main` among them, where each is what a plain file may have.
pub fn read_methods(
    alloc: Global,
    file: &[u8],
    known: &Known,
    members: &[Member],
) -> Result<Option<Methods>, AllocError>
    requires header { IsHeader file.now }
    requires tables { HasTables file.now }
    requires no_other { known.now.functions ≡ [] }
    ensures { IfOk result (λ read. MatchOption read
        ((main : Member) (functions : List PlainFunction) → AreMethods file.now known.now.class members.now (Some main) functions → ⊥)
        (λ read. AreMethods file.now known.now.class members.now (Some read.main) read.functions)) }
{
    law_methods_once();
    law_main_is_no_function();
    let mut main = None;
    let mut functions = PlainFunctions::new(alloc);
    for member in members {
        if is_called_main(alloc, file, known.class.as_slice(), *member)? {
            if main.is_some() {
                return Ok(None);
            }
            main = Some(*member);
        } else {
            let Some(function) = read_function(alloc, file, known, *member)? else {
                return Ok(None);
            };
            functions.push(function)?;
        }
    }
    match main {
        Some(main) => Ok(Some(Methods { main, functions })),
        None => Ok(None),
    }
}
