//! The commands: what each comes to, before anything is written.

ghost use Rattle.std.specs.Prelude.{◌≡◌, ◌⊎◌, ◌↔◌, [], IfOk, IfSome, string_bytes, option_map, map};
ghost use Rattle.cc_outside.specs.Shelves.{Counts, Known, NeverFall};
ghost use Rattle.cc_meaning_plain.specs.Laws.{default_limits};
ghost use Rattle.cc_meaning_plain.specs.Staged.{plain_report};
ghost use Rattle.cc_cli.specs.Plans.{file_named, BytesPlan, RunPlan, ran_plan};
ghost use Rattle.cc_link.specs.Links as links;
ghost use Rattle.cc_cli.specs.Offloading.{tells_of, offload_named};
ghost use Rattle.cc_cli.specs.Runs.{Sources, CallPlan, WordsPlan};

use crate::offload::{offload_files, offload_named};
use cc_command_check::LONGEST_FILE;
use cc_link::Link;
use cc_machine::run;
use cc_meaning::lists::Bytes;
use cc_meaning::report::Limits;
use cc_meaning_plain::{Plain, law_plain_reports, law_plain_returns};
use cc_output::{Fault, Plan};
use cc_outside::{ReadEnd, Shelf};
use cc_plain::read_plain;
use std::alloc::{AllocError, Global};

/// The limits of a run for which none are named.
pub const DEFAULT_LIMITS: Limits = Limits {
    instructions: 100_000_000,
    words: 1_048_576,
};

/// The file in the words `run FILE`.
fn file_named(words: &[String]) -> Option<&str>
    ensures { option_map (λ name. name.now) result ≡ file_named (map string_bytes words.now) }
{
    match words {
        [command, name] if command.as_str() == "run" => Some(name.as_str()),
        _ => None,
    }
}

/// The output of a plain file's run within the default limits, and the line that it returned.
fn ran_plan(alloc: Global, plain: &Plain) -> Result<Plan, AllocError>
    ensures { IfOk result (λ plan. plan ≡ ran_plan (plain_report plain.now default_limits)) }
{
    let report = run(alloc, plain, DEFAULT_LIMITS)?;
    Ok(Plan {
        status: 0,
        out: report.out,
        notes: Bytes::from_slice(alloc, b"end return\n")?,
    })
}

/// Runs the program in a file that was read.
fn run_bytes(alloc: Global, name: &str, file: &[u8]) -> Result<Plan, AllocError>
    ensures { IfOk result (λ plan. BytesPlan name.now file.now plan) }
{
    law_plain_reports();
    law_plain_returns();
    match read_plain(alloc, file)? {
        Some(plain) => ran_plan(alloc, &plain),
        None => Fault::NotBuilt.plan(alloc, name),
    }
}

/// Reads a file and runs its program.
fn run_file<S: Shelf>(alloc: Global, name: &str, shelf: &mut S) -> Result<Plan, AllocError>
    ensures plan { IfOk result (λ plan. RunPlan (S.known shelf.old) (S.counts shelf.old) name.now (S.counts shelf.new) plan) }
    ensures known { S.known shelf.new ≡ S.known shelf.old }
    ensures counts { NeverFall (S.counts shelf.old) (S.counts shelf.new) }
{
    match shelf.read(name, LONGEST_FILE) {
        Ok(bytes) => run_bytes(alloc, name, bytes.as_slice()),
        Err(ReadEnd::Failed) => Fault::ReadFault.plan(alloc, name),
        Err(ReadEnd::Absent) => Fault::Absent.plan(alloc, name),
        Err(ReadEnd::TooLarge) => Fault::TooLarge.plan(alloc, name),
        Err(ReadEnd::Memory) => Err(AllocError),
    }
}

/// Does what the words call for, but for the writing.
fn plan_of<S: Shelf, L: Link>(
    alloc: Global,
    words: &[String],
    shelf: &mut S,
    link: &mut L,
) -> Result<Plan, AllocError>
    ensures plan { let old : Sources = record { known = S.known shelf.old; counts = S.counts shelf.old; link = L.known link.old; calls = L.counts link.old } in
        let new : Sources = record { known = S.known shelf.new; counts = S.counts shelf.new; link = L.known link.new; calls = L.counts link.new } in
        IfOk result (λ plan. CallPlan (file_named (map string_bytes words.now)) (offload_named (map string_bytes words.now)) old new (tells_of L.known L.honest L.prompt L.going L.last link.old link.new) plan) }
    ensures link { offload_named (map string_bytes words.now) ≡ None → link.new ≡ link.old }
    ensures known { S.known shelf.new ≡ S.known shelf.old }
    ensures counts { NeverFall (S.counts shelf.old) (S.counts shelf.new) }
    ensures calls { links.NeverFall (L.counts link.old) (L.counts link.new) }
    ensures honest { L.honest link.old ↔ L.honest link.new }
{
    if let Some(name) = file_named(words) {
        return run_file(alloc, name, shelf);
    }
    match offload_named(words) {
        Some(names) => offload_files(alloc, &names, shelf, link),
        None => Fault::Usage.plan(alloc, ""),
    }
}

/// The same, or what want of memory comes to; none where there is no memory even for that.
pub fn plan<S: Shelf, L: Link>(
    alloc: Global,
    words: &[String],
    shelf: &mut S,
    link: &mut L,
) -> Option<Plan>
    ensures plan { let old : Sources = record { known = S.known shelf.old; counts = S.counts shelf.old; link = L.known link.old; calls = L.counts link.old } in
        let new : Sources = record { known = S.known shelf.new; counts = S.counts shelf.new; link = L.known link.new; calls = L.counts link.new } in
        IfSome result (λ plan. WordsPlan (map string_bytes words.now) old new (tells_of L.known L.honest L.prompt L.going L.last link.old link.new) plan) }
    ensures link { offload_named (map string_bytes words.now) ≡ None → link.new ≡ link.old }
    ensures known { S.known shelf.new ≡ S.known shelf.old }
    ensures counts { NeverFall (S.counts shelf.old) (S.counts shelf.new) }
    ensures calls { links.NeverFall (L.counts link.old) (L.counts link.new) }
    ensures honest { L.honest link.old ↔ L.honest link.new }
{
    match plan_of(alloc, words, shelf, link) {
        Ok(plan) => Some(plan),
        Err(_) => Fault::Memory.plan(alloc, "").ok(),
    }
}
