//! The classes above a class, and the types above a type.

ghost use Rattle.std.specs.Prelude.{◌≡◌, ◌+◌, ◌≤◌, ◌⊎◌, ◌↔◌, IsTrue, Some, None};
ghost use Rattle.cc_meaning_typing.specs.Hierarchy.{IsHierarchy, superclass_of, object_class, has_ancestor};
ghost use Rattle.cc_meaning_typing.specs.Types.{is_loose, fits_class, is_same_base, is_same_type, IsBelow, class_above, next_above, least_above};
ghost use Rattle.cc_meaning_typing.specs.Heights.{rank};

use cc_meaning::lists::ClassIx;
use cc_meaning::program::{Base, ClassKind, DexType, Program};
use cc_meaning_typing::{law_least_type, law_tree, law_types};

/// The superclass of a class, as the program states it.
#[tactic(auto, unfolding(cc_meaning_typing::specs::Hierarchy::superclass_of, cc_meaning_typing::specs::Hierarchy::superclass_in))]
fn superclass(program: &Program, class: ClassIx) -> Option<ClassIx>
    ensures { result ≡ superclass_of program.now class }
{
    match program.classes.get(class as usize) {
        Some(class) => class.superclass,
        None => None,
    }
}

/// Whether every reference fits the class: it is an interface of the file, or outside and no exception. Takes no memory.
#[tactic(auto, unfolding(cc_meaning_typing::specs::Types::is_loose, cc_meaning_typing::specs::Types::is_loose_in, cc_meaning_typing::specs::Types::is_loose_kind))]
pub fn is_loose(class: ClassIx, program: &Program) -> bool
    ensures { result ≡ is_loose program.now class }
{
    match program.classes.get(class as usize) {
        None => false,
        Some(class) => match class.kind {
            ClassKind::File => class.is_interface,
            ClassKind::BuiltIn => false,
            ClassKind::Outside => true,
            ClassKind::OutsideError => false,
            ClassKind::Array => false,
        },
    }
}

/// Whether a class is another or has it among its superclasses.
#[tactic(auto, using(crate::proofs::Ancestors::above, crate::proofs::Ancestors::same, crate::proofs::Ancestors::none_above, crate::proofs::Ancestors::at_end), unfolding(cc_meaning_typing::specs::Hierarchy::has_ancestor))]
fn has_ancestor(program: &Program, class: ClassIx, ancestor: ClassIx) -> bool
    ensures { result ≡ has_ancestor program.now class ancestor }
{
    let mut at = class;
    for _ in 0..program.classes.len() {
        if at == ancestor {
            return true;
        }
        match superclass(program, at) {
            Some(above) => at = above,
            None => return false,
        }
    }
    at == ancestor
}

/// Whether an object of a class fits a declared class: that is loose, or the object's class is it or below it. Takes no memory.
#[tactic(auto, unfolding(cc_meaning_typing::specs::Types::fits_class))]
pub fn fits_class(object: ClassIx, declared: ClassIx, program: &Program) -> bool
    ensures { result ≡ fits_class program.now object declared }
{
    is_loose(declared, program) || has_ancestor(program, object, declared)
}

/// Object's number: the end of the way up from any class.
pub fn object_class(program: &Program) -> ClassIx
    requires { IsHierarchy program.now }
    ensures { result ≡ object_class program.now }
{
    law_tree();
    let mut class = 0;
    while let Some(above) = superclass(program, class) {
        class = above;
    }
    class
}

/// The first of a class's superclasses that registers hold, else Object.
fn class_above(program: &Program, object: ClassIx, class: ClassIx) -> ClassIx
    requires hierarchy { IsHierarchy program.now }
    requires object { object ≡ object_class program.now }
    ensures { result ≡ class_above program.now class }
{
    law_tree();
    let mut above = class;
    while let Some(next) = superclass(program, above) {
        if !is_loose(next, program) {
            return next;
        }
        above = next;
    }
    object
}

/// The type next above a type, `None` for Object.
#[tactic(auto, unfolding(cc_meaning_typing::specs::Types::next_above, cc_meaning_typing::specs::Types::next_in, cc_meaning_typing::specs::Types::above_objects, cc_meaning_typing::specs::Types::fewer))]
fn next_above(program: &Program, object: ClassIx, of: DexType) -> Option<DexType>
    requires hierarchy { IsHierarchy program.now }
    requires object { object ≡ object_class program.now }
    ensures { result ≡ next_above program.now of }
{
    let fewer = if of.dims == 0 { 0 } else { of.dims - 1 };
    let dims = match of.base {
        Base::Class(class) => {
            if class != object {
                let above = Base::Class(class_above(program, object, class));
                return Some(DexType {
                    dims: of.dims,
                    base: above,
                });
            }
            if of.dims == 0 {
                return None;
            }
            fewer
        }
        _ => fewer,
    };
    Some(DexType {
        dims,
        base: Base::Class(object),
    })
}

/// The type next above a type that isn't Object.
fn above(program: &Program, object: ClassIx, of: DexType) -> DexType
    requires hierarchy { IsHierarchy program.now }
    requires object { object ≡ object_class program.now }
    requires below { next_above program.now of ≡ None → ⊥ }
    ensures { next_above program.now of ≡ Some result }
{
    match next_above(program, object, of) {
        Some(above) => above,
        None => unreachable!(),
    }
}

#[tactic(auto, unfolding(cc_meaning_typing::specs::Types::is_same_base))]
fn same_base(a: Base, b: Base) -> bool
    ensures equal { IsTrue result ↔ (a ≡ b) }
    ensures test { result ≡ is_same_base a b }
{
    match (a, b) {
        (Base::Boolean, Base::Boolean) => true,
        (Base::Byte, Base::Byte) => true,
        (Base::Short, Base::Short) => true,
        (Base::Char, Base::Char) => true,
        (Base::Int, Base::Int) => true,
        (Base::Long, Base::Long) => true,
        (Base::Class(c), Base::Class(d)) => c == d,
        _ => false,
    }
}

/// Whether two types are one.
#[tactic(auto, unfolding(cc_meaning_typing::specs::Types::is_same_type))]
pub fn same_type(a: DexType, b: DexType) -> bool
    ensures equal { IsTrue result ↔ (a ≡ b) }
    ensures test { result ≡ is_same_type a b }
{
    a.dims == b.dims && same_base(a.base, b.base)
}

/// Goes up from both in step, until one of them is at Object.
fn race(program: &Program, object: ClassIx, a: DexType, b: DexType) -> (DexType, DexType)
    requires hierarchy { IsHierarchy program.now }
    requires object { object ≡ object_class program.now }
    ensures in_step { rank program.now a + rank program.now result.1 ≡ rank program.now b + rank program.now result.0 }
    ensures left { rank program.now result.0 ≤ rank program.now a }
    ensures right { rank program.now result.1 ≤ rank program.now b }
    ensures at_end { (rank program.now result.0 ≡ 0) ⊎ (rank program.now result.1 ≡ 0) }
{
    law_tree();
    let mut first = a;
    let mut second = b;
    while let Some(above) = next_above(program, object, first) {
        match next_above(program, object, second) {
            Some(next) => {
                first = above;
                second = next;
            }
            None => return (first, second),
        }
    }
    (first, second)
}

/// Goes up from `low` by as many steps as `ahead` is below Object.
fn lift(program: &Program, object: ClassIx, low: DexType, ahead: DexType) -> DexType
    requires hierarchy { IsHierarchy program.now }
    requires object { object ≡ object_class program.now }
    requires room { rank program.now ahead ≤ rank program.now low }
    ensures rises { IsBelow program.now low result }
    ensures steps { rank program.now result + rank program.now ahead ≡ rank program.now low }
{
    law_tree();
    law_types();
    let mut lifted = low;
    let mut left = ahead;
    while let Some(next) = next_above(program, object, left) {
        left = next;
        lifted = above(program, object, lifted);
    }
    lifted
}

/// Goes up from two types that are equally far below Object, until they meet.
fn meet(program: &Program, object: ClassIx, a: DexType, b: DexType) -> DexType
    requires hierarchy { IsHierarchy program.now }
    requires object { object ≡ object_class program.now }
    requires level { rank program.now a ≡ rank program.now b }
    ensures { result ≡ least_above program.now a b }
{
    law_tree();
    law_types();
    law_least_type();
    let mut first = a;
    let mut second = b;
    while !same_type(first, second) {
        first = above(program, object, first);
        second = above(program, object, second);
    }
    first
}

/// The least type that both are below.
pub fn least_above(program: &Program, object: ClassIx, a: DexType, b: DexType) -> DexType
    requires hierarchy { IsHierarchy program.now }
    requires object { object ≡ object_class program.now }
    ensures { result ≡ least_above program.now a b }
{
    law_tree();
    law_types();
    law_least_type();
    let (first, second) = race(program, object, a, b);
    let left = lift(program, object, a, first);
    let right = lift(program, object, b, second);
    meet(program, object, left, right)
}
