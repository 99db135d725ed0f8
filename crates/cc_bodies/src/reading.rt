//! Instructions one behind the other.

ghost use Rattle.std.specs.Prelude.{◌<◌, ◌^◌, length, IfOk, MatchOption};
ghost use Rattle.cc_bodies.specs.Reading.{IsReading};

use cc_insn::decode;
use cc_meaning::fault::{InsnFault, Memory};
use cc_meaning::program::{Insns, Placed};
use cc_meaning_program::{insns_take_units, stand_to_end};
use std::alloc::Global;

/// Where units stop being instructions, in units from their first, and why.
#[derive(Clone, Copy)]
pub struct Break {
    pub at: u32,
    pub fault: InsnFault,
}

/// The instructions that units are, or those before the place where they break off.
#[derive(Drop)]
pub struct Reading {
    pub insns: Insns,
    pub broken: Option<Break>,
}

/// The instructions of units from the first unit on, payloads among them, up to the units' end or to where no instruction stands. Rows of the file
/// stand where they name a text, a type, a field or a method.
/// Source: Dalvik bytecode, section Summary of bytecode set.
pub fn instructions(alloc: Global, units: &[u16]) -> Result<Reading, Memory>
    requires { length units.now < 2 ^ 32 }
    ensures { IfOk result (IsReading units.now) }
{
    insns_take_units();
    stand_to_end();
    let mut insns = Insns::new(alloc);
    let mut at = 0;
    while at < units.len() {
        match decode(alloc, units, at) {
            Ok((insn, size)) => {
                insns.push(Placed {
                    at: at as u32,
                    units: size as u32,
                    insn,
                })?;
                at += size;
            }
            Err(InsnFault::Memory) => return Err(Memory),
            Err(fault) => {
                let broken = Some(Break {
                    at: at as u32,
                    fault,
                });
                return Ok(Reading { insns, broken });
            }
        }
    }
    Ok(Reading {
        insns,
        broken: None,
    })
}
