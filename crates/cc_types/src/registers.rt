//! What is known of registers.

ghost use Rattle.std.specs.Prelude.{◌≡◌, ◌↔◌, IsTrue};
ghost use Rattle.cc_meaning_typing.specs.Hierarchy.{IsHierarchy, object_class};
ghost use Rattle.cc_meaning_typing.specs.Types.{held};
ghost use Rattle.cc_meaning_typing.specs.Registers.{Covers, Fits, join, register_of};

use crate::hierarchy::{is_loose, least_above, object_class, same_type};
use cc_meaning::program::{Base, DexType, Program, RegType};
use cc_meaning_typing::law_join;

/// The least that covers two: either of two equal ones, an int for the literal 0 and an int, the reference for the literal 0 and a reference, for two
/// references that of the least type that both are below, and nothing known for all others. Takes no memory.
#[tactic(auto, unfolding(cc_meaning_typing::specs::Registers::join))]
pub fn join(a: RegType, b: RegType, program: &Program) -> RegType
    requires { IsHierarchy program.now }
    ensures { result ≡ join program.now a b }
{
    match (a, b) {
        (RegType::Int, RegType::Int | RegType::Zero) => RegType::Int,
        (RegType::Zero, RegType::Int) => RegType::Int,
        (RegType::Zero, RegType::Zero) => RegType::Zero,
        (RegType::Zero, RegType::Reference(of)) => RegType::Reference(of),
        (RegType::Reference(of), RegType::Zero) => RegType::Reference(of),
        (RegType::Reference(left), RegType::Reference(right)) => {
            RegType::Reference(least_above(program, object_class(program), left, right))
        }
        (RegType::LongLow, RegType::LongLow) => RegType::LongLow,
        (RegType::LongHigh, RegType::LongHigh) => RegType::LongHigh,
        (RegType::Fresh(left), RegType::Fresh(right)) => {
            if left == right {
                RegType::Fresh(left)
            } else {
                RegType::Unset
            }
        }
        _ => RegType::Unset,
    }
}

/// Whether the same is known of two registers.
pub fn same_register(a: RegType, b: RegType) -> bool
    ensures { IsTrue result ↔ (a ≡ b) }
{
    match (a, b) {
        (RegType::Unset, RegType::Unset) => true,
        (RegType::Int, RegType::Int) => true,
        (RegType::Zero, RegType::Zero) => true,
        (RegType::LongLow, RegType::LongLow) => true,
        (RegType::LongHigh, RegType::LongHigh) => true,
        (RegType::Reference(left), RegType::Reference(right)) => same_type(left, right),
        (RegType::Fresh(left), RegType::Fresh(right)) => left == right,
        _ => false,
    }
}

/// Whether the first covers the second: what a register is in the second sense, it is in the first. Takes no memory.
pub fn covers(wide: RegType, narrow: RegType, program: &Program) -> bool
    requires { IsHierarchy program.now }
    ensures { IsTrue result ↔ Covers program.now wide narrow }
{
    law_join();
    same_register(join(wide, narrow, program), wide)
}

/// The type that a register holds for a declared one: Object for a loose class, which every reference fits, and so in arrays; any other type itself. Takes no
/// memory.
#[tactic(auto, unfolding(cc_meaning_typing::specs::Types::held, cc_meaning_typing::specs::Types::held_base))]
pub fn held(declared: DexType, program: &Program) -> DexType
    requires { IsHierarchy program.now }
    ensures { result ≡ held program.now declared }
{
    match declared.base {
        Base::Class(class) => {
            let base = if is_loose(class, program) {
                object_class(program)
            } else {
                class
            };
            DexType {
                dims: declared.dims,
                base: Base::Class(base),
            }
        }
        _ => declared,
    }
}

/// What is known of a value of a declared type, of a long in its first register. Takes no memory.
#[tactic(auto, unfolding(cc_meaning_typing::specs::Registers::register_of, cc_meaning_typing::specs::Registers::register_of_kind))]
pub fn register_of(declared: DexType, program: &Program) -> RegType
    requires { IsHierarchy program.now }
    ensures { result ≡ register_of program.now declared }
{
    if declared.dims > 0 {
        return RegType::Reference(held(declared, program));
    }
    match declared.base {
        Base::Class(_) => RegType::Reference(held(declared, program)),
        Base::Long => RegType::LongLow,
        _ => RegType::Int,
    }
}

/// Whether a register fits a declared type: an int takes `Int` and `Zero`, a long its first half, and a reference type `Zero` and each reference whose type is
/// below it as it is held. Takes no memory.
pub fn fits(a: RegType, declared: DexType, program: &Program) -> bool
    requires { IsHierarchy program.now }
    ensures { IsTrue result ↔ Fits program.now a declared }
{
    covers(register_of(declared, program), a, program)
}
