//! What a program has.

ghost use Rattle.std.specs.Prelude.{◌≡◌, ◌≤◌, ◌<◌, ◌^◌, length, count_by};
ghost use Rattle.cc_meaning.specs.declared.program.Class.{Class};
ghost use Rattle.cc_meaning.specs.declared.program.Code.{Code};
ghost use Rattle.cc_meaning.specs.declared.program.Method.{Method};
ghost use Rattle.cc_meaning.specs.declared.program.MethodKind.TheVariants as kinds;
ghost use Rattle.cc_meaning_typing.specs.Complete.{IsComplete};
ghost use Rattle.cc_meaning_typing.specs.WellFormed.{IsWellFormed, IsLaidOut};
ghost use Rattle.cc_check.specs.Summaries.{has_code, is_of_file, summary_of, units_of_kind, units_of_methods};

use cc_meaning::program::{Class, ClassKind, Method, MethodKind, Program};
use cc_verify::units;

/// What a program has: the classes that its file defines, the methods that have code, and the units of 16 bits of all this code.
#[derive(Clone, Copy, Debug, PartialEq, Eq)]
pub struct Summary {
    pub classes: usize,
    pub methods: usize,
    pub units: u64,
}

#[tactic(auto, unfolding(cc_meaning_typing::specs::WellTyped::is_of_file))]
fn is_of_file(class: &Class) -> bool
    ensures { result ≡ is_of_file class.now }
{
    matches!(class.kind, ClassKind::File)
}

#[tactic(auto, unfolding(cc_meaning_program::specs::Programs::has_code))]
fn has_code(method: &Method) -> bool
    ensures { result ≡ has_code method.now }
{
    matches!(method.kind, MethodKind::Code(_))
}

/// How many units a method has.
#[tactic(auto, unfolding(crate::specs::Summaries::units_of_kind))]
fn units_of_kind(kind: &MethodKind) -> u64
    requires { (code : Code) → kind.now ≡ kinds.Code code → IsLaidOut code }
    ensures units { result ≡ units_of_kind kind.now }
    ensures fits { result < 2 ^ 32 }
{
    match kind {
        MethodKind::Code(code) => units(code) as u64,
        _ => 0,
    }
}

/// How many units all methods have.
fn units_of_methods(program: &Program) -> u64
    requires well_formed { IsWellFormed program.now }
    requires few { length program.now.methods ≤ 2 ^ 32 }
    ensures { result ≡ units_of_methods program.now.methods }
{
    let methods = program.methods.as_slice();
    let mut units = 0;
    for method in methods {
        units += units_of_kind(&method.kind);
    }
    units
}

/// What a program has. Takes no memory.
pub fn summarize(program: &Program) -> Summary
    requires complete { IsComplete program.now }
    ensures { result ≡ summary_of program.now }
{
    let classes = program.classes.as_slice();
    let methods = program.methods.as_slice();
    Summary {
        classes: classes.iter().filter(|class| is_of_file(class)).count(),
        methods: methods.iter().filter(|method| has_code(method)).count(),
        units: units_of_methods(program),
    }
}
