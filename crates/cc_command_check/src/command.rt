//! The command, with all that it writes.

ghost use Rattle.std.specs.Prelude.{◌≡◌, ◌≤◌, IfSome, map, string_bytes};
ghost use Rattle.cc_outside.specs.Shelves.{NeverFall};
ghost use Rattle.cc_command_check.specs.Plans.{WordsPlan};
ghost use Rattle.cc_command_check.specs.Checks.{Outside, Checks};

use crate::law_one_call;
use crate::plan::check_plan;
use cc_check::one_checked;
use cc_output::{Fault, Plan, carry_out};
use cc_outside::{Shelf, Sink};
use std::alloc::Global;

/// What the words come to, or want of memory; none where there is no memory even for its line.
fn planned<S: Shelf>(alloc: Global, words: &[String], shelf: &mut S) -> Option<Plan>
    ensures plan { IfSome result (λ plan. WordsPlan (map string_bytes words.now) (S.known shelf.old) (S.counts shelf.old) (S.counts shelf.new) plan) }
    ensures known { S.known shelf.new ≡ S.known shelf.old }
    ensures counts { NeverFall (S.counts shelf.old) (S.counts shelf.new) }
{
    match check_plan(alloc, words, shelf) {
        Ok(plan) => Some(plan),
        Err(_) => Fault::Memory.plan(alloc, "").ok(),
    }
}

/// Does what the words `check FILE [--main CLASS]` call for, over a shelf of files and sinks for output and for notes, and gives the status to end with.
/// The first word is the command's name.
///
/// A file that spells a well typed program gives the line `classes C, methods M, units U` on `out`: the classes of the file, its methods with code, and the
/// units of 16 bits of their code. `--help` and `--version` give their texts there. Each fault gives one line on `notes`.
///
/// The statuses are 0; 64 where there is a mistake in the words; 65 where the file is malformed; 68 where its program isn't well typed or is too wide; 70
/// where there is no memory; 71 where the file could not be read; 72 where a sink failed; 73 where there is no such file; 74 where it is longer than
/// 8,388,608 bytes. Room for all that is written is made on both sinks before the first write.
pub fn check_words<S: Shelf, O: Sink, N: Sink>(
    alloc: Global,
    words: &[String],
    shelf: &mut S,
    out: &mut O,
    notes: &mut N,
) -> u8
    ensures checks { let before : Outside = record { known = S.known shelf.old; counts = S.counts shelf.old; out = O.pipe out.old; notes = N.pipe notes.old } in
        let after : Outside = record { known = S.known shelf.new; counts = S.counts shelf.new; out = O.pipe out.new; notes = N.pipe notes.new } in
        Checks (map string_bytes words.now) before result after (out.new ≡ out.old) }
    ensures files { S.known shelf.new ≡ S.known shelf.old }
    ensures counts { NeverFall (S.counts shelf.old) (S.counts shelf.new) }
    ensures out { (O.pipe out.old).faults ≤ (O.pipe out.new).faults }
    ensures notes { (N.pipe notes.old).faults ≤ (N.pipe notes.new).faults }
{
    law_one_call();
    one_checked();
    match planned(alloc, words, shelf) {
        Some(plan) => carry_out(&plan, out, notes),
        None => 70,
    }
}
