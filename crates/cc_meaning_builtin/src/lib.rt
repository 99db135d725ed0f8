//! What the methods of the built-in classes and of arrays do.
#![tactic(auto)]

ghost use Rattle.cc_meaning.specs.declared.program.Program.{Program};
ghost use Rattle.cc_meaning_builtin.specs.Listing.{JustListedAreBuiltIn};

pub mod builtin;

/// The methods that the table of the built-in classes lists, and those of arrays, are built-in methods, and no others are.
#[tactic(auto, using(crate::proofs::Listed::just_listed))]
pub fn law_just_listed_are_built_in()
    ensures { (program : Program) → JustListedAreBuiltIn program }
{}
