//! Why a file is no program.

use cc_meaning::fault::{DexFault, ProgramFault};
use std::fmt;
use thiserror::Error;

/// Why a file is no program: its bytes are no DEX file of version 035, or what they spell is no program.
#[derive(Drop, Debug, Error)]
pub enum ReadFault {
    /// The bytes are malformed.
    Dex(DexFault),
    /// The tables and classes are those of no program.
    Program(ProgramFault),
    /// There is no memory.
    Memory,
}

impl fmt::Display for ReadFault {
    ghost use Rattle.std.specs.Prelude.{Some, codes};

    ghost output = { λ _. Some (codes "no program") };

    fn fmt<W: fmt::Write>(&self, f: &mut fmt::Formatter<W>) -> fmt::Result {
        f.write_str("no program")
    }
}

impl From<DexFault> for ReadFault {
    ghost use Rattle.std.specs.Prelude.{◌≡◌};
    ghost use Rattle.cc_meaning_program.specs.Reading.{dex_fault};

    ghost from_gives = { λ given fault. fault ≡ dex_fault given };

    #[tactic(auto, unfolding(crate::specs::Reading::dex_fault))]
    fn from(fault: DexFault) -> ReadFault {
        match fault {
            DexFault::Memory => ReadFault::Memory,
            other => ReadFault::Dex(other),
        }
    }
}

impl From<ProgramFault> for ReadFault {
    ghost use Rattle.std.specs.Prelude.{◌≡◌};
    ghost use Rattle.cc_meaning_program.specs.Reading.{program_fault};

    ghost from_gives = { λ given fault. fault ≡ program_fault given };

    #[tactic(auto, unfolding(crate::specs::Reading::program_fault))]
    fn from(fault: ProgramFault) -> ReadFault {
        match fault {
            ProgramFault::Memory => ReadFault::Memory,
            other => ReadFault::Program(other),
        }
    }
}
