//! Programs that are complete and well typed.

ghost use Rattle.std.specs.Prelude.{◌≡◌};
ghost use Rattle.cc_meaning_typing.specs.Complete.{IsComplete};
ghost use Rattle.cc_meaning_typing.specs.WellTyped.{WellTyped};

use cc_meaning::program::Program;
use std::marker::Model;

/// A program that is complete and well typed: all that its classes, members and code name is there, in order and numbered by 32 bits. Only such a program
/// becomes one.
#[derive(Drop)]
pub struct Verified {
    program: Program,
}

impl Model for Verified {
    ghost use Rattle.cc_meaning.specs.declared.program.Program.{Program};
    ghost use Rattle.cc_meaning_typing.specs.Complete.{IsComplete};
    ghost use Rattle.cc_meaning_typing.specs.WellTyped.{WellTyped};

    ghost Value = { Program };

    ghost view = { λ it. it.program };

    ghost invariant = { λ it. IsComplete it.program × WellTyped it.program };
}

impl Verified {
    /// The verified program. Takes no memory.
    pub fn new(program: Program) -> Verified
        requires complete { IsComplete program }
        requires well_typed { WellTyped program }
        ensures { result ≡ program }
    {
        Verified { program }
    }

    /// The program, which is complete and well typed. Takes no memory.
    pub fn program(&self) -> &Program
        ensures same { result.now ≡ self.now }
        ensures complete { IsComplete self.now }
        ensures well_typed { WellTyped self.now }
    {
        &self.program
    }
}
