//! The numbers of a plain file's methods among all methods of its program.

ghost use Rattle.std.specs.Prelude.{◌≡◌, ◌<◌, ◌^◌, map};
ghost use Rattle.std.specs.Ordering.{nat_cmp};
ghost use Rattle.std.specs.Cmp.Lexicographic.{slice_cmp};
ghost use Rattle.cc_built_in.specs.BuiltInMethods.{is_before, built_in_tables, methods_before};
ghost use Rattle.cc_built_in.specs.Listed.{table_of};
ghost use Rattle.std.specs.Option.{option_copied};
ghost use Rattle.cc_meaning_plain.specs.Program.{main_name, before_main, function_number};
ghost use Rattle.cc_meaning_clone.specs.Functions.{function_place, function_numbered};

use cc_built_in::built_in_classes;
use cc_built_in::table::ListedClass;
use cc_meaning_plain::{Plain, PlainFunction};
use std::cmp::Ordering;

/// How a name stands to another, by UTF-16 units. The second one is in ASCII.
fn compare(name: &[u16], other: &[u8]) -> Ordering
    ensures { result ≡ slice_cmp nat_cmp name.now other.now }
{
    let mut name = name;
    let mut other = other;
    while let Some((unit, units)) = name.split_first() {
        let Some((byte, bytes)) = other.split_first() else {
            return Ordering::Greater;
        };
        let order = unit.cmp(&u16::from(*byte));
        if order != Ordering::Equal {
            return order;
        }
        name = units;
        other = bytes;
    }
    if other.is_empty() {
        Ordering::Equal
    } else {
        Ordering::Less
    }
}

/// Whether a name, which is in ASCII, stands before another.
#[tactic(auto, using(crate::proofs::Compared::before_is))]
fn is_before(name: &[u8], other: &[u16]) -> bool
    ensures { result ≡ is_before name.now other.now }
{
    compare(other, name) == Ordering::Greater
}

/// How many methods these classes have whose names stand before a name.
fn count_before(classes: &[ListedClass], name: &[u16]) -> u32
    requires { methods_before (map table_of classes.now) name.now < 2 ^ 32 }
    ensures { result ≡ methods_before (map table_of classes.now) name.now }
{
    let mut count = 0;
    for class in classes {
        if is_before(class.name, name) {
            count += class.methods.len();
        }
    }
    count as u32
}

/// How many built-in methods stand before those of a class.
fn first_method(class: &[u16]) -> u32
    ensures { result ≡ methods_before built_in_tables class.now }
{
    count_before(built_in_classes(), class)
}

/// Whether a method's name with its types stands before that of `main`.
fn is_before_main(name: &[u16]) -> bool
    ensures { result ≡ is_before name.now main_name }
{
    compare(name, b"main([Ljava/lang/String;)V") == Ordering::Less
}

/// How many functions stand before `main`.
fn before_main(functions: &[PlainFunction]) -> usize
    ensures { result ≡ before_main functions.now }
{
    let mut count = 0;
    for function in functions {
        if !is_before_main(function.name.as_slice()) {
            return count;
        }
        count += 1;
    }
    count
}

/// The place among the functions of the method of a number.
#[tactic(auto, unfolding(cc_meaning_clone::specs::Functions::function_place))]
fn function_place(plain: &Plain, method: u32) -> Option<usize>
    ensures { result ≡ function_place plain.now method }
{
    let first = first_method(plain.class.as_slice());
    if method < first {
        return None;
    }
    let place = (method - first) as usize;
    let main = before_main(plain.functions.as_slice());
    if place == main {
        None
    } else if place < main {
        Some(place)
    } else {
        Some(place - 1)
    }
}

/// The function whose method has a number.
#[tactic(auto, unfolding(cc_meaning_clone::specs::Functions::function_numbered))]
pub fn function_numbered(plain: &Plain, method: u32) -> Option<&PlainFunction>
    ensures { option_copied result ≡ function_numbered plain.now method }
{
    plain.functions.get(function_place(plain, method)?)
}

/// The number of the method of the function of a place. It takes time in proportion to the functions.
#[tactic(auto, using(crate::proofs::Counts::few_methods))]
pub fn method_number(plain: &Plain, function: usize) -> u32
    requires { function < 2 ^ 31 }
    ensures { result ≡ function_number plain.now function }
{
    let before = first_method(plain.class.as_slice()) + function as u32;
    if function < before_main(plain.functions.as_slice()) {
        before
    } else {
        before + 1
    }
}
