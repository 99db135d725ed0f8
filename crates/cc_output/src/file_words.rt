//! What a line says of a file that is malformed.

ghost use Rattle.std.specs.Prelude.{◌≡◌, IfOk};
ghost use Rattle.cc_output.specs.Faults.{dex_words, insn_words, program_words, dex_status, insn_status, program_status};

use crate::fields::{with_name, with_number, with_numbers, with_place};
use cc_meaning::fault::{DexFault, InsnFault, ProgramFault};
use std::alloc::{AllocError, Global};

/// Of bytes that are no DEX file.
pub(crate) fn dex_words(alloc: Global, fault: DexFault) -> Result<Vec<u8>, AllocError>
    ensures { IfOk result (λ words. words.items ≡ dex_words fault) }
{
    match fault {
        DexFault::NotDex035 => Vec::from_slice(alloc, b"fault 65 D1 NotDex035"),
        DexFault::BadSize => Vec::from_slice(alloc, b"fault 65 D2 BadSize"),
        DexFault::BadChecksum { stated, found } => {
            with_numbers(alloc, b"fault 65 D3 BadChecksum", stated, found)
        }
        DexFault::BadSignature => Vec::from_slice(alloc, b"fault 65 D4 BadSignature"),
        DexFault::OutOfFile { at } => with_number(alloc, b"fault 65 D5 OutOfFile", at),
        DexFault::BadIndex { table, row } => {
            with_numbers(alloc, b"fault 65 D6 BadIndex", table, row)
        }
        DexFault::BadText { string } => with_number(alloc, b"fault 65 D7 BadText", string),
        DexFault::TooLarge => Vec::from_slice(alloc, b"fault 65 D8 TooLarge"),
        DexFault::BadClassData { class } => with_number(alloc, b"fault 65 D9 BadClassData", class),
        DexFault::BadCode { method } => with_number(alloc, b"fault 65 D10 BadCode", method),
        DexFault::BadTry { method } => with_number(alloc, b"fault 65 D11 BadTry", method),
        DexFault::BadValue { class } => with_number(alloc, b"fault 65 D12 BadValue", class),
        DexFault::Memory => Vec::from_slice(alloc, b"fault 70 Memory"),
    }
}

/// Of units at an address of a method that are no instruction.
fn insn_words(
    alloc: Global,
    method: &[u16],
    pc: u32,
    fault: InsnFault,
) -> Result<Vec<u8>, AllocError>
    ensures { IfOk result (λ words. words.items ≡ insn_words method.now pc fault) }
{
    match fault {
        InsnFault::Float => with_place(alloc, b"fault 65 I1 Float", method, pc),
        InsnFault::Unused => with_place(alloc, b"fault 65 I2 Unused", method, pc),
        InsnFault::CutOff => with_place(alloc, b"fault 65 I3 CutOff", method, pc),
        InsnFault::BadPayload => with_place(alloc, b"fault 65 I4 BadPayload", method, pc),
        InsnFault::Memory => Vec::from_slice(alloc, b"fault 70 Memory"),
    }
}

/// Of classes that are no program.
pub(crate) fn program_words(alloc: Global, fault: &ProgramFault) -> Result<Vec<u8>, AllocError>
    ensures { IfOk result (λ words. words.items ≡ program_words fault.now) }
{
    match fault {
        ProgramFault::HierarchyCycle { class } => {
            with_name(alloc, b"fault 65 L1 HierarchyCycle", class.as_slice())
        }
        ProgramFault::NoSuperclass { class } => {
            with_name(alloc, b"fault 65 L2 NoSuperclass", class.as_slice())
        }
        ProgramFault::NoMain => Vec::from_slice(alloc, b"fault 65 L3 NoMain"),
        ProgramFault::Duplicate { class } => {
            with_name(alloc, b"fault 65 L4 Duplicate", class.as_slice())
        }
        ProgramFault::FloatMember { name } => {
            with_name(alloc, b"fault 65 L5 FloatMember", name.as_slice())
        }
        ProgramFault::Insn { method, pc, fault } => {
            insn_words(alloc, method.as_slice(), *pc, *fault)
        }
        ProgramFault::BadIndex { method, pc } => {
            with_place(alloc, b"fault 65 I5 BadIndex", method.as_slice(), *pc)
        }
        ProgramFault::Memory => Vec::from_slice(alloc, b"fault 70 Memory"),
    }
}

/// The status after bytes that are no DEX file.
pub(crate) fn dex_status(fault: DexFault) -> u8
    ensures { result ≡ dex_status fault }
{
    match fault {
        DexFault::Memory => 70,
        _ => 65,
    }
}

/// The status after units that are no instruction.
fn insn_status(fault: InsnFault) -> u8
    ensures { result ≡ insn_status fault }
{
    match fault {
        InsnFault::Memory => 70,
        _ => 65,
    }
}

/// The status after classes that are no program.
pub(crate) fn program_status(fault: &ProgramFault) -> u8
    ensures { result ≡ program_status fault.now }
{
    match fault {
        ProgramFault::Insn { fault, .. } => insn_status(*fault),
        ProgramFault::Memory => 70,
        _ => 65,
    }
}
