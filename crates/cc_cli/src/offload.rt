//! The command that runs a file whose moved function is done by a clone.

ghost use Rattle.std.specs.Prelude.{◌≡◌, ◌≢◌, ◌⊎◌, ◌↔◌, ℕ, ◌≤◌, ◌<◌, [], Option, IfOk, MatchOption, IsSome, length, string_bytes, map};
ghost use Rattle.cc_outside.specs.Shelves.{NeverFall};
ghost use Rattle.cc_link.specs.Links as links;
ghost use Rattle.cc_output.specs.Travel.{ended_line};
ghost use Rattle.cc_meaning_plain.specs.Laws.{AreBytes};
ghost use Rattle.cc_meaning_plain.specs.Plain.{IsPlain};
ghost use Rattle.cc_meaning_clone.specs.Hello.{no_script};
ghost use Rattle.cc_partition.specs.Partition.{IsPartition};
ghost use Rattle.cc_cli.specs.Plans.{IsNotPlain};
ghost use Rattle.cc_cli.specs.Offloading.{tells_of, all_names, offload_named, longest_text, UnreadPlan, job_of, ReadPlan, OffloadedPlan, Offloaded, TextPlan, PartitionPlan, ScriptPlan, FilePlan, OffloadPlan};

use crate::command::DEFAULT_LIMITS;
use cc_command_check::LONGEST_FILE;
use cc_device::offload;
use cc_link::Link;
use cc_meaning::fault::Memory;
use cc_meaning::file::Job;
use cc_meaning::lists::{ArgTexts, Bytes};
use cc_meaning::report::Report;
use cc_meaning::text::Text;
use cc_meaning::travel::Travel;
use cc_meaning_ends::law_plain_ends;
use cc_meaning_plain::{Plain, law_plain_returns};
use cc_output::{Fault, Plan, ended_line, ended_status, put_travel_line};
use cc_outside::{ReadEnd, Shelf};
use cc_partition::{PartitionEnd, read_partition};
use cc_plain::read_plain;
use std::alloc::{AllocError, Global};

/// The longest script and partition that are read, in bytes.
const LONGEST_TEXT: u64 = 16_777_216;

/// How many calls of the link within the sending or the awaiting of one frame may move nothing.
const PATIENCE: u32 = 1_000;

/// The one script of plain files, which has no classes.
const NO_SCRIPT: &[u8] = b"{\"classes\":[]}";

/// The three files, and the place of the clone.
#[derive(Clone, Copy)]
pub struct Names<'a> {
    file: &'a str,
    script: &'a str,
    partition: &'a str,
    place: &'a str,
}

/// The names in the words `offload FILE SCRIPT PARTITION PLACE`.
pub fn offload_named(words: &[String]) -> Option<Names<'_>>
    ensures { MatchOption result (offload_named (map string_bytes words.now) ≡ None)
        (λ found. offload_named (map string_bytes words.now) ≡ Some (all_names found.file.now found.script.now found.partition.now found.place.now)) }
{
    match words {
        [command, file, script, partition, place] if command.as_str() == "offload" => Some(Names {
            file: file.as_str(),
            script: script.as_str(),
            partition: partition.as_str(),
            place: place.as_str(),
        }),
        _ => None,
    }
}

/// Why a file was not read.
fn unread(alloc: Global, name: &str, end: ReadEnd) -> Result<Plan, AllocError>
    ensures { IfOk result (λ plan. UnreadPlan end name.now plan) }
{
    match end {
        ReadEnd::Failed => Fault::ReadFault.plan(alloc, name),
        ReadEnd::Absent => Fault::Absent.plan(alloc, name),
        ReadEnd::TooLarge => Fault::TooLarge.plan(alloc, name),
        ReadEnd::Memory => Err(AllocError),
    }
}

/// The status, the output, and the lines on how the run ended and on how the device fared.
fn offloaded_plan(alloc: Global, report: Report, travel: Travel) -> Result<Plan, AllocError>
    requires { IsSome (ended_line report.ending) }
    ensures { IfOk result (λ plan. OffloadedPlan report travel plan) }
{
    let ended = ended_line(&report.ending).unwrap();
    let mut notes = Vec::from_slice(alloc, ended)?;
    put_travel_line(alloc, &mut notes, travel)?;
    Ok(Plan {
        status: ended_status(&report.ending),
        out: report.out,
        notes: Bytes::from_vec(notes),
    })
}

/// All that the device is given: no main class is named, there are no arguments, and the limits and the patience are the default ones.
fn job_of(alloc: Global, file: Bytes, place: &str) -> Result<Job, AllocError>
    ensures { IfOk result (λ job. job ≡ job_of file place.now) }
{
    Ok(Job {
        file,
        script: Bytes::from_slice(alloc, NO_SCRIPT)?,
        main: None,
        args: ArgTexts::new(alloc),
        limits: DEFAULT_LIMITS,
        place: Text::from_str(alloc, place)?,
        patience: PATIENCE,
    })
}

/// Runs a plain file whose function of this place, or none, is done by the clone.
fn run_there<L: Link>(
    alloc: Global,
    plain: &Plain,
    moved: Option<usize>,
    job: &Job,
    link: &mut L,
) -> Result<Plan, AllocError>
    requires bytes { AreBytes job.now.file }
    requires plain { IsPlain job.now.file plain.now }
    requires moved { (i : ℕ) → moved ≡ Some i → i < length plain.now.functions }
    requires job { job.now ≡ job_of job.now.file job.now.place }
    ensures plan { IfOk result (λ plan. Offloaded job.now.place (L.known link.old) (L.counts link.old) (L.known link.new) (L.counts link.new) (tells_of L.known L.honest L.prompt L.going L.last link.old link.new) job.now.file plain.now moved plan) }
    ensures counts { links.NeverFall (L.counts link.old) (L.counts link.new) }
    ensures honest { L.honest link.old ↔ L.honest link.new }
{
    law_plain_ends();
    law_plain_returns();
    match offload(alloc, plain, moved, job, link) {
        Ok((report, travel)) => offloaded_plan(alloc, report, travel),
        Err(Memory) => Err(AllocError),
    }
}

/// Makes the job of a plain file, and runs it.
fn run_moved<L: Link>(
    alloc: Global,
    place: &str,
    file: Bytes,
    plain: &Plain,
    moved: Option<usize>,
    link: &mut L,
) -> Result<Plan, AllocError>
    requires bytes { AreBytes file }
    requires plain { IsPlain file plain.now }
    requires moved { (i : ℕ) → moved ≡ Some i → i < length plain.now.functions }
    ensures plan { IfOk result (λ plan. Offloaded place.now (L.known link.old) (L.counts link.old) (L.known link.new) (L.counts link.new) (tells_of L.known L.honest L.prompt L.going L.last link.old link.new) file plain.now moved plan) }
    ensures counts { links.NeverFall (L.counts link.old) (L.counts link.new) }
    ensures honest { L.honest link.old ↔ L.honest link.new }
{
    let job = job_of(alloc, file, place)?;
    run_there(alloc, plain, moved, &job, link)
}

/// Runs a plain file by the text of its partition.
fn by_text<L: Link>(
    alloc: Global,
    place: &str,
    file: Bytes,
    plain: &Plain,
    text: &[u8],
    link: &mut L,
) -> Result<Plan, AllocError>
    requires bytes { AreBytes file }
    requires plain { IsPlain file plain.now }
    ensures plan { IfOk result (λ plan. TextPlan place.now (L.known link.old) (L.counts link.old) (L.known link.new) (L.counts link.new) (tells_of L.known L.honest L.prompt L.going L.last link.old link.new) file plain.now text.now plan) }
    ensures counts { links.NeverFall (L.counts link.old) (L.counts link.new) }
    ensures honest { L.honest link.old ↔ L.honest link.new }
{
    match read_partition(alloc, text, plain) {
        Ok(moved) => run_moved(alloc, place, file, plain, moved, link),
        Err(PartitionEnd::OtherForm) => Fault::NotBuilt.plan(alloc, ""),
        Err(PartitionEnd::Memory) => Err(AllocError),
    }
}

/// Reads the partition of a plain file, and runs the file by it.
fn with_partition<S: Shelf, L: Link>(
    alloc: Global,
    names: &Names<'_>,
    file: Bytes,
    plain: &Plain,
    shelf: &mut S,
    link: &mut L,
) -> Result<Plan, AllocError>
    requires bytes { AreBytes file }
    requires plain { IsPlain file plain.now }
    ensures plan { IfOk result (λ plan. ReadPlan (S.known shelf.old) (S.counts shelf.old) names.now.partition.now longest_text (S.counts shelf.new) (link.new ≡ link.old) plan
        (PartitionPlan (all_names names.now.file.now names.now.script.now names.now.partition.now names.now.place.now) (S.known shelf.old) (S.counts shelf.new)
        (L.known link.old) (L.counts link.old) (L.known link.new) (L.counts link.new) (tells_of L.known L.honest L.prompt L.going L.last link.old link.new) file plain.now plan)) }
    ensures known { S.known shelf.new ≡ S.known shelf.old }
    ensures shelf { NeverFall (S.counts shelf.old) (S.counts shelf.new) }
    ensures counts { links.NeverFall (L.counts link.old) (L.counts link.new) }
    ensures honest { L.honest link.old ↔ L.honest link.new }
{
    match shelf.read(names.partition, LONGEST_TEXT) {
        Ok(text) => by_text(alloc, names.place, file, plain, text.as_slice(), link),
        Err(end) => unread(alloc, names.partition, end),
    }
}

/// Judges the script of a plain file, and then reads the partition.
fn by_script<S: Shelf, L: Link>(
    alloc: Global,
    names: &Names<'_>,
    file: Bytes,
    plain: &Plain,
    script: &[u8],
    shelf: &mut S,
    link: &mut L,
) -> Result<Plan, AllocError>
    requires bytes { AreBytes file }
    requires plain { IsPlain file plain.now }
    ensures plan { IfOk result (λ plan. ScriptPlan (all_names names.now.file.now names.now.script.now names.now.partition.now names.now.place.now) (S.known shelf.old) (S.counts shelf.new)
        (L.known link.old) (L.counts link.old) (L.known link.new) (L.counts link.new) (tells_of L.known L.honest L.prompt L.going L.last link.old link.new) file plain.now plan script.now (S.counts shelf.old)) }
    ensures known { S.known shelf.new ≡ S.known shelf.old }
    ensures shelf { NeverFall (S.counts shelf.old) (S.counts shelf.new) }
    ensures counts { links.NeverFall (L.counts link.old) (L.counts link.new) }
    ensures honest { L.honest link.old ↔ L.honest link.new }
{
    if script == NO_SCRIPT {
        with_partition(alloc, names, file, plain, shelf, link)
    } else {
        Fault::NotBuilt.plan(alloc, "")
    }
}

/// Reads the script of a plain file, and goes on by it.
fn with_script<S: Shelf, L: Link>(
    alloc: Global,
    names: &Names<'_>,
    file: Bytes,
    plain: &Plain,
    shelf: &mut S,
    link: &mut L,
) -> Result<Plan, AllocError>
    requires bytes { AreBytes file }
    requires plain { IsPlain file plain.now }
    ensures plan { IfOk result (λ plan. ReadPlan (S.known shelf.old) (S.counts shelf.old) names.now.script.now longest_text (S.counts shelf.new) (link.new ≡ link.old) plan
        (ScriptPlan (all_names names.now.file.now names.now.script.now names.now.partition.now names.now.place.now) (S.known shelf.old) (S.counts shelf.new)
        (L.known link.old) (L.counts link.old) (L.known link.new) (L.counts link.new) (tells_of L.known L.honest L.prompt L.going L.last link.old link.new) file plain.now plan)) }
    ensures known { S.known shelf.new ≡ S.known shelf.old }
    ensures shelf { NeverFall (S.counts shelf.old) (S.counts shelf.new) }
    ensures counts { links.NeverFall (L.counts link.old) (L.counts link.new) }
    ensures honest { L.honest link.old ↔ L.honest link.new }
{
    match shelf.read(names.script, LONGEST_TEXT) {
        Ok(script) => by_script(alloc, names, file, plain, script.as_slice(), shelf, link),
        Err(end) => unread(alloc, names.script, end),
    }
}

/// The plain file that bytes are, or none.
fn plain_of(alloc: Global, file: &[u8]) -> Result<Option<Plain>, AllocError>
    ensures bytes { AreBytes file.now }
    ensures plain { IfOk result (λ found. MatchOption found (IsNotPlain file.now) (λ plain. IsPlain file.now plain)) }
{
    read_plain(alloc, file)
}

/// Judges the file, and then reads the script.
fn by_file<S: Shelf, L: Link>(
    alloc: Global,
    names: &Names<'_>,
    file: Bytes,
    shelf: &mut S,
    link: &mut L,
) -> Result<Plan, AllocError>
    ensures plan { IfOk result (λ plan. FilePlan (all_names names.now.file.now names.now.script.now names.now.partition.now names.now.place.now) (S.known shelf.old) (S.counts shelf.new)
        (L.known link.old) (L.counts link.old) (L.known link.new) (L.counts link.new) (tells_of L.known L.honest L.prompt L.going L.last link.old link.new) plan file (S.counts shelf.old)) }
    ensures known { S.known shelf.new ≡ S.known shelf.old }
    ensures shelf { NeverFall (S.counts shelf.old) (S.counts shelf.new) }
    ensures counts { links.NeverFall (L.counts link.old) (L.counts link.new) }
    ensures honest { L.honest link.old ↔ L.honest link.new }
{
    match plain_of(alloc, file.as_slice())? {
        Some(plain) => with_script(alloc, names, file, &plain, shelf, link),
        None => Fault::NotBuilt.plan(alloc, ""),
    }
}

/// Reads the three files, each judged before the next is read, and runs the first.
pub fn offload_files<S: Shelf, L: Link>(
    alloc: Global,
    names: &Names<'_>,
    shelf: &mut S,
    link: &mut L,
) -> Result<Plan, AllocError>
    ensures plan { IfOk result (λ plan. OffloadPlan (all_names names.now.file.now names.now.script.now names.now.partition.now names.now.place.now) (S.known shelf.old) (S.counts shelf.new)
        (L.known link.old) (L.counts link.old) (L.known link.new) (L.counts link.new) (tells_of L.known L.honest L.prompt L.going L.last link.old link.new) (S.counts shelf.old) plan) }
    ensures known { S.known shelf.new ≡ S.known shelf.old }
    ensures shelf { NeverFall (S.counts shelf.old) (S.counts shelf.new) }
    ensures counts { links.NeverFall (L.counts link.old) (L.counts link.new) }
    ensures honest { L.honest link.old ↔ L.honest link.new }
{
    match shelf.read(names.file, LONGEST_FILE) {
        Ok(file) => by_file(alloc, names, file, shelf, link),
        Err(end) => unread(alloc, names.file, end),
    }
}
