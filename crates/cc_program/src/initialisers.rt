//! The methods that classes begin with.

ghost use Rattle.std.specs.Prelude.{◌≡◌, ◌<◌, ◌≤◌, ◌^◌, ◌↔◌, ℕ, Some, None, IsTrue, length, slice_set, replicate, IfOk};
ghost use Rattle.cc_meaning_program.specs.Programs.{is_run};
ghost use Rattle.cc_program.specs.Initialisers.{Begins, AreInitialisers};

use cc_list::List;
use cc_meaning::lists::{ClassIx, MethodIx};
use cc_meaning::program::{Method, MethodKind};
use std::alloc::{AllocError, Global};

/// `<clinit>`.
const INITIALISER: [u16; 8] = [60, 99, 108, 105, 110, 105, 116, 62];

/// Whether a method is static and has code.
#[tactic(auto, unfolding(cc_meaning_program::specs::Programs::is_run, cc_meaning_program::specs::Programs::has_code))]
fn is_run(method: &Method) -> bool
    ensures { result ≡ is_run (Some method.now) }
{
    if !method.is_static {
        return false;
    }
    match method.kind {
        MethodKind::Code(_) => true,
        _ => false,
    }
}

/// Whether a class begins with this method, where it is one of its own.
fn begins(method: &Method) -> bool
    ensures { IsTrue result ↔ Begins method.now }
{
    if !is_run(method) {
        return false;
    }
    if !method.params.is_empty() {
        return false;
    }
    if method.result.is_some() {
        return false;
    }
    method.name.as_slice() == INITIALISER.as_slice()
}

/// Notes a class's method, where there is such a class.
fn note(found: &mut List<Option<MethodIx>>, class: ClassIx, number: MethodIx)
    ensures within { class < length found.old → found.new ≡ slice_set found.old class (Some number) }
    ensures past { length found.old ≤ class → found.new ≡ found.old }
{
    if (class as usize) < found.len() {
        found.set(class as usize, Some(number));
    }
}

/// So many places for methods, with none.
fn no_methods(alloc: Global, count: usize) -> Result<List<Option<MethodIx>>, AllocError>
    ensures { IfOk result (λ found. found ≡ replicate count None) }
{
    Ok(List::from_vec(vec![in alloc; None; count]?))
}

/// For each of so many classes the method that it begins with, where it has one.
pub(crate) fn initialisers(
    alloc: Global,
    count: usize,
    methods: &[Method],
) -> Result<List<Option<MethodIx>>, AllocError>
    requires { length methods.now < 2 ^ 32 }
    ensures { IfOk result (AreInitialisers methods.now count) }
{
    let mut found = no_methods(alloc, count)?;
    for (number, method) in methods.iter().enumerate() {
        if begins(method) {
            note(&mut found, method.class, number as u32);
        }
    }
    Ok(found)
}
