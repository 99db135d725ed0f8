//! Why a file isn't one of a well typed program.

use cc_meaning::fault::{DexFault, ProgramFault, VerifyFault};
use cc_meaning::lists::Units;
use cc_meaning_program::ReadFault;
use std::alloc::AllocError;
use std::fmt;
use thiserror::Error;

/// Why a file isn't one of a well typed program.
#[derive(Drop, Debug, Error)]
pub enum CheckFault {
    /// The bytes are malformed.
    Dex(DexFault),
    /// The tables and classes are those of no program.
    Program(ProgramFault),
    /// The program isn't well typed, or a method is too wide. `method` is the printed name of the method that the fault names by its number.
    Verify { method: Units, fault: VerifyFault },
    /// There is no memory.
    Memory,
}

impl fmt::Display for CheckFault {
    ghost use Rattle.std.specs.Prelude.{Some, codes};

    ghost output = { λ _. Some (codes "no well typed program") };

    fn fmt<W: fmt::Write>(&self, f: &mut fmt::Formatter<W>) -> fmt::Result {
        f.write_str("no well typed program")
    }
}

impl From<ReadFault> for CheckFault {
    ghost use Rattle.std.specs.Prelude.{◌≡◌};
    ghost use Rattle.cc_check.specs.Checking.{read_fault};

    ghost from_gives = { λ given fault. fault ≡ read_fault given };

    #[tactic(auto, unfolding(crate::specs::Checking::read_fault))]
    fn from(fault: ReadFault) -> CheckFault {
        match fault {
            ReadFault::Dex(fault) => CheckFault::Dex(fault),
            ReadFault::Program(fault) => CheckFault::Program(fault),
            ReadFault::Memory => CheckFault::Memory,
        }
    }
}

impl From<AllocError> for CheckFault {
    ghost use Rattle.std.specs.Prelude.{◌≡◌};
    ghost use Rattle.cc_check.specs.declared.fault.CheckFault.TheVariants as faults;

    ghost from_gives = { λ _ fault. fault ≡ faults.Memory };

    fn from(_: AllocError) -> CheckFault {
        CheckFault::Memory
    }
}
