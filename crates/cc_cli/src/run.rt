//! The one call.

ghost use Rattle.std.specs.Prelude.{◌≡◌, ◌↔◌, ◌≤◌, true, false, [], string_bytes, map};
ghost use Rattle.cc_outside.specs.Shelves.{NeverFall};
ghost use Rattle.cc_link.specs.Links as links;
ghost use Rattle.cc_link.specs.Honest.{told};
ghost use Rattle.cc_cli.specs.Checking.{is_check, ChecksAlone};
ghost use Rattle.cc_cli.specs.Offloading.{tells_of, Names, offload_named};
ghost use Rattle.cc_cli.specs.Runs.{Outside, Runs};
ghost use Rattle.cc_cli.specs.Statuses.{Statuses, Transparent};

use crate::command::plan;
use cc_command_check::check_words;
use cc_link::Link;
use cc_meaning_plain::law_plain_once;
use cc_output::carry_out;
use cc_outside::{Shelf, Sink};
use std::alloc::Global;

/// Whether the words call for `check`.
fn is_check(words: &[String]) -> bool
    ensures { result ≡ is_check (map string_bytes words.now) }
{
    match words {
        [command, ..] => command.as_str() == "check",
        [] => false,
    }
}

/// Does what words other than those of `check` call for.
fn other_words<S: Shelf, O: Sink, N: Sink, L: Link>(
    alloc: Global,
    words: &[String],
    shelf: &mut S,
    out: &mut O,
    notes: &mut N,
    link: &mut L,
) -> u8
    ensures runs { let before : Outside = record { known = S.known shelf.old; counts = S.counts shelf.old; link = L.known link.old; calls = L.counts link.old; out = O.pipe out.old; notes = N.pipe notes.old } in
        let after : Outside = record { known = S.known shelf.new; counts = S.counts shelf.new; link = L.known link.new; calls = L.counts link.new; out = O.pipe out.new; notes = N.pipe notes.new } in
        Runs (map string_bytes words.now) before result after (tells_of L.known L.honest L.prompt L.going L.last link.old link.new) (out.new ≡ out.old) }
    ensures statuses { let before : Outside = record { known = S.known shelf.old; counts = S.counts shelf.old; link = L.known link.old; calls = L.counts link.old; out = O.pipe out.old; notes = N.pipe notes.old } in
        let after : Outside = record { known = S.known shelf.new; counts = S.counts shelf.new; link = L.known link.new; calls = L.counts link.new; out = O.pipe out.new; notes = N.pipe notes.new } in
        Statuses (map string_bytes words.now) before result after (tells_of L.known L.honest L.prompt L.going L.last link.old link.new) }
    ensures files { S.known shelf.new ≡ S.known shelf.old }
    ensures counts { NeverFall (S.counts shelf.old) (S.counts shelf.new) }
    ensures out { (O.pipe out.old).faults ≤ (O.pipe out.new).faults }
    ensures notes { (N.pipe notes.old).faults ≤ (N.pipe notes.new).faults }
    // Over a fresh link that tells that its far side is a clone, `offload` writes what the run on one heap writes, and it falls back only where a count of the link rose; over one that is prompt besides it never does.
    ensures transparent { let before : Outside = record { known = S.known shelf.old; counts = S.counts shelf.old; link = L.known link.old; calls = L.counts link.old; out = O.pipe out.old; notes = N.pipe notes.old } in
        let after : Outside = record { known = S.known shelf.new; counts = S.counts shelf.new; link = L.known link.new; calls = L.counts link.new; out = O.pipe out.new; notes = N.pipe notes.new } in
        (names : Names) → offload_named (map string_bytes words.now) ≡ Some names → L.honest link.old → L.known link.old ≡ told [] [] → Transparent names before result after (L.prompt link.old) }
    // No other command calls the link.
    ensures link { offload_named (map string_bytes words.now) ≡ None → link.new ≡ link.old }
    ensures calls { links.NeverFall (L.counts link.old) (L.counts link.new) }
    ensures honest { L.honest link.old ↔ L.honest link.new }
{
    law_plain_once();
    match plan(alloc, words, shelf, link) {
        Some(plan) => carry_out(&plan, out, notes),
        None => 70,
    }
}

/// Does all that the words call for, over a shelf of files, sinks for output and for notes, and a link, and gives the status to end with.
/// The words have no program name.
///
/// `run FILE` runs a plain file: its output goes to `out`, and `end return` to `notes`.
///
/// `offload FILE SCRIPT PARTITION PLACE` runs it too, and has the function that the partition names done by a clone at the place, over the link. The script is
/// `{"classes":[]}`, the partition `{"moved":[]}` or `{"moved":["NAME"]}`. The output goes to `out`; to `notes` go `end return`, `end stop budget` or `end stop heap`,
/// and then `link migrated N, fallback WORD`. Where the link's first fault keeps the clone from its work, the function is done here. No other command calls the link.
///
/// `check FILE [--main CLASS]` reads a file, verifies its program, and says on `out` how many classes, methods with code and units it has, or on `notes`
/// why it is refused. `check --help` and `check --version` give their texts on `out`.
///
/// The statuses of `check` are those of `cc_command_check`. The others are 0; 2 where an offloaded run stopped; 64 where the words are no command;
/// 70 where there is no memory; 71 where the file could not be read; 72 where a sink failed; 73 where there is no such file; 74 where it is
/// longer than 8,388,608 bytes, or a script or partition than 16,777,216; 80 where the file isn't plain, or the script or the partition is of another form. Room for all that is written is made on both sinks before the first write.
pub fn run_words<S: Shelf, O: Sink, N: Sink, L: Link>(
    alloc: Global,
    words: &[String],
    shelf: &mut S,
    out: &mut O,
    notes: &mut N,
    link: &mut L,
) -> u8
    // `check` has clauses of its own.
    ensures check { let before : Outside = record { known = S.known shelf.old; counts = S.counts shelf.old; link = L.known link.old; calls = L.counts link.old; out = O.pipe out.old; notes = N.pipe notes.old } in
        let after : Outside = record { known = S.known shelf.new; counts = S.counts shelf.new; link = L.known link.new; calls = L.counts link.new; out = O.pipe out.new; notes = N.pipe notes.new } in
        is_check (map string_bytes words.now) ≡ true → ChecksAlone (map string_bytes words.now) before result after (out.new ≡ out.old) (link.new ≡ link.old) }
    ensures runs { let before : Outside = record { known = S.known shelf.old; counts = S.counts shelf.old; link = L.known link.old; calls = L.counts link.old; out = O.pipe out.old; notes = N.pipe notes.old } in
        let after : Outside = record { known = S.known shelf.new; counts = S.counts shelf.new; link = L.known link.new; calls = L.counts link.new; out = O.pipe out.new; notes = N.pipe notes.new } in
        is_check (map string_bytes words.now) ≡ false → Runs (map string_bytes words.now) before result after (tells_of L.known L.honest L.prompt L.going L.last link.old link.new) (out.new ≡ out.old) }
    ensures statuses { let before : Outside = record { known = S.known shelf.old; counts = S.counts shelf.old; link = L.known link.old; calls = L.counts link.old; out = O.pipe out.old; notes = N.pipe notes.old } in
        let after : Outside = record { known = S.known shelf.new; counts = S.counts shelf.new; link = L.known link.new; calls = L.counts link.new; out = O.pipe out.new; notes = N.pipe notes.new } in
        is_check (map string_bytes words.now) ≡ false → Statuses (map string_bytes words.now) before result after (tells_of L.known L.honest L.prompt L.going L.last link.old link.new) }
    ensures files { S.known shelf.new ≡ S.known shelf.old }
    ensures counts { NeverFall (S.counts shelf.old) (S.counts shelf.new) }
    ensures out { (O.pipe out.old).faults ≤ (O.pipe out.new).faults }
    ensures notes { (N.pipe notes.old).faults ≤ (N.pipe notes.new).faults }
    // Over a fresh link that tells that its far side is a clone, `offload` writes what the run on one heap writes, and it falls back only where a count of the link rose; over one that is prompt besides it never does.
    ensures transparent { let before : Outside = record { known = S.known shelf.old; counts = S.counts shelf.old; link = L.known link.old; calls = L.counts link.old; out = O.pipe out.old; notes = N.pipe notes.old } in
        let after : Outside = record { known = S.known shelf.new; counts = S.counts shelf.new; link = L.known link.new; calls = L.counts link.new; out = O.pipe out.new; notes = N.pipe notes.new } in
        (names : Names) → offload_named (map string_bytes words.now) ≡ Some names → L.honest link.old → L.known link.old ≡ told [] [] → Transparent names before result after (L.prompt link.old) }
    // No other command calls the link.
    ensures link { offload_named (map string_bytes words.now) ≡ None → link.new ≡ link.old }
    ensures calls { links.NeverFall (L.counts link.old) (L.counts link.new) }
    ensures honest { L.honest link.old ↔ L.honest link.new }
{
    if is_check(words) {
        return check_words(alloc, words, shelf, out, notes);
    }
    other_words(alloc, words, shelf, out, notes, link)
}
