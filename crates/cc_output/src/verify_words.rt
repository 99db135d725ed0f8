//! What a line says of a program that isn't well typed.

ghost use Rattle.std.specs.Prelude.{◌≡◌, IfOk};
ghost use Rattle.cc_output.specs.Faults.{verify_words, verify_status};

use crate::fields::{with_name, with_place};
use cc_meaning::fault::VerifyFault;
use std::alloc::{AllocError, Global};

/// Of a fault of the method of this name.
pub(crate) fn verify_words(
    alloc: Global,
    method: &[u16],
    fault: VerifyFault,
) -> Result<Vec<u8>, AllocError>
    ensures { IfOk result (λ words. words.items ≡ verify_words method.now fault) }
{
    match fault {
        VerifyFault::IllTyped { pc, .. } => {
            with_place(alloc, b"fault 68 V1 IllTyped", method, pc)
        }
        VerifyFault::BadTarget { pc, .. } => {
            with_place(alloc, b"fault 68 V2 BadTarget", method, pc)
        }
        VerifyFault::FallsOff { .. } => with_name(alloc, b"fault 68 V3 FallsOff", method),
        VerifyFault::TooWide { .. } => with_name(alloc, b"fault 68 V4 TooWide", method),
        VerifyFault::UnknownMember { pc, .. } => {
            with_place(alloc, b"fault 68 V5 UnknownMember", method, pc)
        }
        VerifyFault::Memory => Vec::from_slice(alloc, b"fault 70 Memory"),
    }
}

/// The status after such a fault.
pub(crate) fn verify_status(fault: VerifyFault) -> u8
    ensures { result ≡ verify_status fault }
{
    match fault {
        VerifyFault::Memory => 70,
        _ => 68,
    }
}
