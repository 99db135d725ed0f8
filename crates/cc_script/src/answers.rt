//! What a listed answer says for a method of a program.

ghost use Rattle.std.specs.Prelude.{◌≡◌, ◌^◌, ◌≤◌, ℕ, ℤ, length, Some, IfOk};
ghost use Rattle.cc_meaning.specs.BuiltIn.{object_name, string_name};
ghost use Rattle.cc_meaning.specs.Order.{IsRisingByName};
ghost use Rattle.cc_meaning_script.specs.Answers.{is_text_class, takes_text, can_be_thrown, is_outside, holds_of, when, is_within, truth_answer, int_answer, long_answer, instance_answer, object_answer, array_answer, base_answer, nothing_answer, result_answer, thrown_answer, answer_for, class_listed};
ghost use Rattle.cc_units.specs.Units.{units_of};

use cc_built_in::is_built_in_throwable;
use cc_meaning::lists::ClassIx;
use cc_meaning::program::{Base, Class, ClassKind, DexType, Program};
use cc_meaning::report::Answer;
use cc_meaning::text::Text;
use cc_meaning_script::listed::Listed;
use cc_program_names::{class_named, is_ascii};
use cc_types::{fits_class, is_loose};
use cc_units::units_of;
use std::alloc::{AllocError, Global};

#[tactic(auto, unfolding(cc_meaning::specs::BuiltIn::object_name, cc_meaning::specs::BuiltIn::string_name))]
fn is_text_class(class: &Class) -> bool
    ensures { result ≡ is_text_class class.now }
{
    let name = class.name.as_slice();
    is_ascii(name, b"Ljava/lang/String;") || is_ascii(name, b"Ljava/lang/Object;")
}

fn can_be_thrown(class: &Class) -> bool
    ensures { result ≡ can_be_thrown class.now }
{
    match class.kind {
        ClassKind::OutsideError => true,
        ClassKind::BuiltIn => is_built_in_throwable(class.name.as_slice()),
        _ => false,
    }
}

fn is_outside(class: &Class) -> bool
    ensures { result ≡ is_outside class.now.kind }
{
    matches!(class.kind, ClassKind::Outside | ClassKind::OutsideError)
}

fn is_text_class_at(program: &Program, class: ClassIx) -> bool
    ensures { result ≡ holds_of is_text_class program.now class }
{
    match program.classes.get(class as usize) {
        Some(class) => is_text_class(class),
        None => false,
    }
}

/// Whether a text fits a declared class.
fn takes_text(program: &Program, declared: ClassIx) -> bool
    ensures { result ≡ takes_text program.now declared }
{
    is_loose(declared, program) || is_text_class_at(program, declared)
}

fn can_be_thrown_at(program: &Program, class: ClassIx) -> bool
    ensures { result ≡ holds_of can_be_thrown program.now class }
{
    match program.classes.get(class as usize) {
        Some(class) => can_be_thrown(class),
        None => false,
    }
}

fn is_outside_at(program: &Program, class: ClassIx) -> bool
    ensures { result ≡ holds_of (λ (c : Class). is_outside c.kind) program.now class }
{
    match program.classes.get(class as usize) {
        Some(class) => is_outside(class),
        None => false,
    }
}

/// The number of the class whose name a text is.
pub(crate) fn class_listed(
    alloc: Global,
    program: &Program,
    name: &Text,
) -> Result<Option<ClassIx>, AllocError>
    requires few { length program.now.classes ≤ 2 ^ 32 }
    requires rising { IsRisingByName program.now.classes }
    ensures { IfOk result (λ class. class ≡ class_listed program.now name.now) }
{
    let units = units_of(alloc, name.as_str())?;
    Ok(class_named(program, units.as_slice()))
}

fn truth_answer(said: &Listed) -> Option<Answer>
    ensures { result ≡ truth_answer said.now }
{
    match said {
        Listed::Truth(true) => Some(Answer::Int(1)),
        Listed::Truth(false) => Some(Answer::Int(0)),
        _ => None,
    }
}

/// A whole number in a range, as an int.
fn within(low: i32, high: i32, number: i64) -> Option<Answer>
    ensures { result ≡ when (is_within low high number) (Answer.Int number) }
{
    if number < i64::from(low) || number > i64::from(high) {
        return None;
    }
    Some(Answer::Int(number as i32))
}

fn int_answer(low: i32, high: i32, said: &Listed) -> Option<Answer>
    ensures { result ≡ int_answer low high said.now }
{
    match said {
        Listed::Whole(number) => within(low, high, *number),
        _ => None,
    }
}

fn long_answer(said: &Listed) -> Option<Answer>
    ensures { result ≡ long_answer said.now }
{
    match said {
        Listed::Whole(number) => Some(Answer::Long(*number)),
        _ => None,
    }
}

/// A new object of an outside class.
fn instance_answer(program: &Program, declared: ClassIx, class: Option<ClassIx>) -> Option<Answer>
    ensures { result ≡ instance_answer program.now declared class }
{
    let class = class?;
    if is_outside_at(program, class) && fits_class(class, declared, program) {
        Some(Answer::Instance(class))
    } else {
        None
    }
}

fn text_answer(alloc: Global, text: &Text) -> Result<Answer, AllocError>
    ensures { IfOk result (λ answer. answer ≡ Answer.Text (units_of text.now)) }
{
    Ok(Answer::Text(units_of(alloc, text.as_str())?))
}

fn object_answer(
    alloc: Global,
    program: &Program,
    declared: ClassIx,
    said: &Listed,
) -> Result<Option<Answer>, AllocError>
    requires few { length program.now.classes ≤ 2 ^ 32 }
    requires rising { IsRisingByName program.now.classes }
    ensures { IfOk result (λ answer. answer ≡ object_answer program.now declared said.now) }
{
    match said {
        Listed::Null => Ok(Some(Answer::Null)),
        Listed::Text(text) => {
            if takes_text(program, declared) {
                Ok(Some(text_answer(alloc, text)?))
            } else {
                Ok(None)
            }
        }
        Listed::Object(name) => {
            let class = class_listed(alloc, program, name)?;
            Ok(instance_answer(program, declared, class))
        }
        _ => Ok(None),
    }
}

fn base_answer(
    alloc: Global,
    program: &Program,
    base: Base,
    said: &Listed,
) -> Result<Option<Answer>, AllocError>
    requires few { length program.now.classes ≤ 2 ^ 32 }
    requires rising { IsRisingByName program.now.classes }
    ensures { IfOk result (λ answer. answer ≡ base_answer program.now base said.now) }
{
    match base {
        Base::Boolean => Ok(truth_answer(said)),
        Base::Byte => Ok(int_answer(-128, 127, said)),
        Base::Short => Ok(int_answer(-32_768, 32_767, said)),
        Base::Char => Ok(int_answer(0, 65_535, said)),
        Base::Int => Ok(int_answer(-2_147_483_648, 2_147_483_647, said)),
        Base::Long => Ok(long_answer(said)),
        Base::Class(declared) => object_answer(alloc, program, declared, said),
    }
}

fn null_answer(said: &Listed) -> Option<Answer>
    ensures { result ≡ array_answer said.now }
{
    match said {
        Listed::Null => Some(Answer::Null),
        _ => None,
    }
}

fn nothing_answer(said: &Listed) -> Option<Answer>
    ensures { result ≡ nothing_answer said.now }
{
    match said {
        Listed::Null => Some(Answer::Nothing),
        _ => None,
    }
}

/// What an answer says for a result, an exception aside.
fn result_answer(
    alloc: Global,
    program: &Program,
    ty: Option<DexType>,
    said: &Listed,
) -> Result<Option<Answer>, AllocError>
    requires few { length program.now.classes ≤ 2 ^ 32 }
    requires rising { IsRisingByName program.now.classes }
    ensures { IfOk result (λ answer. answer ≡ result_answer program.now ty said.now) }
{
    let Some(ty) = ty else {
        return Ok(nothing_answer(said));
    };
    if ty.dims == 0 {
        base_answer(alloc, program, ty.base, said)
    } else {
        Ok(null_answer(said))
    }
}

/// A new exception of a class.
fn thrown_answer(program: &Program, class: Option<ClassIx>) -> Option<Answer>
    ensures { result ≡ thrown_answer program.now class }
{
    let class = class?;
    if can_be_thrown_at(program, class) {
        Some(Answer::Throws(class))
    } else {
        None
    }
}

/// What a listed answer says for a method of this result, where it is one.
pub(crate) fn answer_for(
    alloc: Global,
    program: &Program,
    ty: Option<DexType>,
    said: &Listed,
) -> Result<Option<Answer>, AllocError>
    requires few { length program.now.classes ≤ 2 ^ 32 }
    requires rising { IsRisingByName program.now.classes }
    ensures { IfOk result (λ answer. answer ≡ answer_for program.now ty said.now) }
{
    match said {
        Listed::Throw(name) => {
            let class = class_listed(alloc, program, name)?;
            Ok(thrown_answer(program, class))
        }
        _ => result_answer(alloc, program, ty, said),
    }
}
