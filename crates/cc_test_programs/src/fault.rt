//! Why a method can't be assembled.

use cc_meaning::fault::Memory;
use std::alloc::AllocError;
use std::fmt;
use thiserror::Error;

/// Why a method can't be assembled.
#[derive(Clone, Copy, Debug, Error)]
pub enum AssemblyFault {
    /// No form holds the operands of an instruction.
    NoForm,
    /// A label was never put at a place.
    Unplaced,
    /// A label is too far from a branch to it.
    TooFar,
    /// There is no memory.
    Memory,
}

impl fmt::Display for AssemblyFault {
    ghost use Rattle.std.specs.Prelude.{Some, codes};

    ghost output = { λ _. Some (codes "no code") };

    fn fmt<W: fmt::Write>(&self, f: &mut fmt::Formatter<W>) -> fmt::Result {
        f.write_str("no code")
    }
}

impl From<AllocError> for AssemblyFault {
    fn from(_: AllocError) -> AssemblyFault {
        AssemblyFault::Memory
    }
}

impl From<Memory> for AssemblyFault {
    fn from(_: Memory) -> AssemblyFault {
        AssemblyFault::Memory
    }
}
