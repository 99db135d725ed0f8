//! The check that registers are used only where they were set.

ghost use Rattle.std.specs.Prelude.{◌≡◌, ◌≤◌, ◌↔◌, IsTrue, length, slice_get, slice_set};
ghost use Rattle.cc_meaning_plain.specs.Code.{held_at_first, LastUses, UsesWhatIsSet};
ghost use Rattle.cc_plain.specs.Uses.{HasWhatItUses, held_after, held_with_argument};

use cc_meaning_plain::{Held, Last, PlainInsn};

fn holds_number(held: &[Held], at: u8) -> bool
    ensures { IsTrue result ↔ (slice_get held.now at ≡ Some Held.Number) }
{
    matches!(held.get(usize::from(at)), Some(Held::Number))
}

fn holds_stream(held: &[Held], at: u8) -> bool
    ensures { IsTrue result ↔ (slice_get held.now at ≡ Some Held.Stream) }
{
    matches!(held.get(usize::from(at)), Some(Held::Stream))
}

fn put(held: &mut [Held], at: u8, what: Held)
    ensures { held.new ≡ slice_set held.old at what }
{
    let at = usize::from(at);
    if at < held.len() {
        held[at] = what;
    }
}

/// Whether an instruction finds what it uses; the registers hold then what it leaves there.
fn follow(held: &mut [Held], insn: PlainInsn) -> bool
    ensures finds { IsTrue result ↔ HasWhatItUses held.old insn }
    ensures leaves { held.new ≡ held_after held.old insn }
{
    match insn {
        PlainInsn::SgetOut { to } => {
            put(held, to, Held::Stream);
            true
        }
        PlainInsn::Const4 { to, value: _ } => {
            put(held, to, Held::Number);
            true
        }
        PlainInsn::AddInt2Addr { to, other } => {
            let finds = holds_number(held, to) && holds_number(held, other);
            put(held, to, Held::Number);
            finds
        }
        PlainInsn::AddIntLit8 {
            to,
            from,
            literal: _,
        } => {
            let finds = holds_number(held, from);
            put(held, to, Held::Number);
            finds
        }
        PlainInsn::InvokePrintln { stream, number } => {
            holds_stream(held, stream) && holds_number(held, number)
        }
        PlainInsn::CallFunction {
            function: _,
            argument,
            to,
        } => {
            let finds = holds_number(held, argument);
            put(held, to, Held::Number);
            finds
        }
    }
}

/// Puts a function's argument into its last register; a `main` reads none.
fn put_argument(held: &mut [Held], last: Last)
    requires { 1 ≤ length held.old }
    ensures { held.new ≡ held_with_argument held.old last }
{
    match last {
        Last::ReturnVoid => {}
        Last::Return { from: _ } => {
            let register = held.len() - 1;
            held[register] = Held::Number;
        }
    }
}

/// Whether the last instruction returns a number, if it returns what a register holds.
fn last_finds(held: &[Held], last: Last) -> bool
    ensures { IsTrue result ↔ LastUses held.now last }
{
    match last {
        Last::ReturnVoid => true,
        Last::Return { from } => holds_number(held, from),
    }
}

pub fn uses_what_is_set(registers: u16, insns: &[PlainInsn], last: Last) -> bool
    requires some { 1 ≤ registers }
    requires few { registers ≤ 16 }
    ensures { IsTrue result ↔ UsesWhatIsSet last (held_at_first last registers) insns.now }
{
    let mut registers_held = [Held::Nothing; 16];
    let held = &mut registers_held[..usize::from(registers)];
    put_argument(held, last);
    for insn in insns {
        if !follow(held, *insn) {
            return false;
        }
    }
    last_finds(held, last)
}
