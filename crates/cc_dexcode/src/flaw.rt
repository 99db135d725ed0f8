//! Why a part of a class isn't read.

use std::alloc::AllocError;

/// Why a part of a class isn't read. Whose fault it is, is said by those who read the part for a class or a method.
#[derive(Clone, Copy)]
pub enum Flaw {
    /// The bytes spell no such part.
    Malformed,
    /// There is no memory.
    Memory,
}

impl From<AllocError> for Flaw {
    ghost use Rattle.std.specs.Prelude.{◌≡◌};
    ghost use Rattle.cc_dexcode.specs.declared.flaw.Flaw.TheVariants.{Memory};

    ghost from_gives = { λ _ flaw. flaw ≡ Memory };

    fn from(_: AllocError) -> Flaw {
        Flaw::Memory
    }
}
