//! Where classes come from, by their names.

ghost use Rattle.std.specs.Prelude.{◌≡◌};
ghost use Rattle.cc_meaning.specs.declared.file.Ids.{Ids};
ghost use Rattle.cc_meaning_dex.specs.Descriptors.{begins_with};
ghost use Rattle.cc_meaning_program.specs.Ancestry.{ends_in, is_exception, is_error, is_defined, outside_kind, kind_of_class};

use cc_built_in::{is_built_in, spells};
use cc_meaning::program::ClassKind;

/// `[`, which begins an array's descriptor.
const ARRAY: u16 = 91;

/// Whether a name ends in this text of ASCII.
#[tactic(auto, unfolding(cc_meaning_program::specs::Ancestry::ends_in))]
fn ends_in(name: &[u16], suffix: &[u8]) -> bool
    ensures { result ≡ ends_in suffix.now name.now }
{
    let front = name.len().saturating_sub(suffix.len());
    let (_, end) = name.split_at(front);
    spells(end, suffix)
}

/// Whether an outside class is an exception, by its name.
#[tactic(auto, unfolding(cc_meaning_program::specs::Ancestry::is_exception))]
pub(crate) fn is_exception(name: &[u16]) -> bool
    ensures { result ≡ is_exception name.now }
{
    ends_in(name, b"Exception;")
}

/// Whether an outside class is an error, by its name.
#[tactic(auto, unfolding(cc_meaning_program::specs::Ancestry::is_error))]
fn is_error(name: &[u16]) -> bool
    ensures { result ≡ is_error name.now }
{
    ends_in(name, b"Error;")
}

pub(crate) fn is_array(name: &[u16]) -> bool
    ensures { result ≡ begins_with 91 name.now }
{
    match name.first() {
        Some(unit) => *unit == ARRAY,
        None => false,
    }
}

/// Where an outside class comes from.
#[tactic(auto, unfolding(cc_meaning_program::specs::Ancestry::outside_kind))]
fn outside_kind(name: &[u16]) -> ClassKind
    ensures { result ≡ outside_kind name.now }
{
    if is_exception(name) || is_error(name) {
        ClassKind::OutsideError
    } else {
        ClassKind::Outside
    }
}

/// Where a class comes from, which the file defines or not.
#[tactic(auto, unfolding(cc_meaning_program::specs::Ancestry::kind_of_class))]
pub(crate) fn kind_of_class(name: &[u16], defined: bool) -> ClassKind
    ensures { (ids : Ids) → defined ≡ is_defined ids name.now → result ≡ kind_of_class ids name.now }
{
    if is_built_in(name) {
        ClassKind::BuiltIn
    } else if defined {
        ClassKind::File
    } else if is_array(name) {
        ClassKind::Array
    } else {
        outside_kind(name)
    }
}
