//! The name of a method within its class, without a copy.

ghost use Rattle.std.specs.Prelude.{◌≡◌, replicate};
ghost use Rattle.std.specs.List.{flat_map};
ghost use Rattle.std.specs.Option.{option_copied};
ghost use Rattle.std.specs.Str.{bytes_eq};
ghost use Rattle.cc_meaning.specs.Names.{class_name, base_descriptor, descriptor, result_descriptor, member_name};
ghost use Rattle.cc_units.specs.Matching.{without};

use cc_meaning::lists::ClassIx;
use cc_meaning::program::{Base, DexType, Method, Program};
use cc_units::behind;

#[tactic(auto, using(cc_units::proofs::Matches::behind_both), unfolding(cc_units::specs::Matching::without))]
fn behind_class<'a>(text: &'a [u8], program: &Program, class: ClassIx) -> Option<&'a [u8]>
    ensures { option_copied result ≡ without text.now (class_name program.now class) }
{
    match program.classes.get(class as usize) {
        Some(class) => behind(text, class.name.as_slice()),
        None => Some(text),
    }
}

fn behind_base<'a>(text: &'a [u8], program: &Program, base: Base) -> Option<&'a [u8]>
    ensures { option_copied result ≡ without text.now (base_descriptor program.now base) }
{
    match base {
        Base::Boolean => behind(text, &[b'Z' as u16]),
        Base::Byte => behind(text, &[b'B' as u16]),
        Base::Short => behind(text, &[b'S' as u16]),
        Base::Char => behind(text, &[b'C' as u16]),
        Base::Int => behind(text, &[b'I' as u16]),
        Base::Long => behind(text, &[b'J' as u16]),
        Base::Class(class) => behind_class(text, program, class),
    }
}

#[tactic(auto, using(crate::proofs::BracketsLeft::next_bracket, crate::proofs::BracketsLeft::no_bracket), unfolding(cc_units::specs::Matching::without))]
fn behind_brackets(text: &[u8], dims: u8) -> Option<&[u8]>
    ensures { option_copied result ≡ without text.now (replicate dims 91) }
{
    let mut rest = text;
    for bracket in 0..dims {
        let _ = bracket;
        rest = behind(rest, &[b'[' as u16])?;
    }
    Some(rest)
}

#[tactic(auto, using(cc_units::proofs::Matches::behind_both), unfolding(cc_units::specs::Matching::without))]
fn behind_type<'a>(text: &'a [u8], program: &Program, ty: &DexType) -> Option<&'a [u8]>
    ensures { option_copied result ≡ without text.now (descriptor program.now ty.now) }
{
    let rest = behind_brackets(text, ty.dims)?;
    behind_base(rest, program, ty.base)
}

#[tactic(auto, using(cc_units::proofs::Matches::next_piece, cc_units::proofs::Matches::no_piece), unfolding(cc_units::specs::Matching::without))]
fn behind_types<'a>(text: &'a [u8], program: &Program, types: &[DexType]) -> Option<&'a [u8]>
    ensures { option_copied result ≡ without text.now (flat_map (descriptor program.now) types.now) }
{
    let mut rest = text;
    for ty in types {
        rest = behind_type(rest, program, ty)?;
    }
    Some(rest)
}

fn behind_result<'a>(text: &'a [u8], program: &Program, answer: Option<DexType>) -> Option<&'a [u8]>
    ensures { option_copied result ≡ without text.now (result_descriptor program.now answer) }
{
    match answer {
        Some(ty) => behind_type(text, program, &ty),
        None => behind(text, &[b'V' as u16]),
    }
}

#[tactic(auto, using(cc_units::proofs::Matches::behind_both), unfolding(cc_units::specs::Matching::without))]
fn behind_member<'a>(text: &'a [u8], program: &Program, method: &Method) -> Option<&'a [u8]>
    ensures { option_copied result ≡ without text.now (member_name program.now method.now) }
{
    let params = behind(behind(text, method.name.as_slice())?, &[b'(' as u16])?;
    let closing = behind_types(params, program, method.params.as_slice())?;
    behind_result(behind(closing, &[b')' as u16])?, program, method.result)
}

/// Whether a text is the name of a method within its class.
#[tactic(auto, using(cc_units::proofs::Matches::whole_of, cc_units::proofs::Matches::not_whole))]
pub(crate) fn is_member(program: &Program, method: &Method, text: &[u8]) -> bool
    ensures { result ≡ bytes_eq (member_name program.now method.now) text.now }
{
    match behind_member(text, program, method) {
        Some(rest) => rest.is_empty(),
        None => false,
    }
}
