//! A run whose moved function is done by a clone.

ghost use Rattle.std.specs.Prelude.{◌≡◌, ◌≢◌, ◌↔◌, ◌+◌, ◌-◌, ◌^◌, ◌≤◌, ◌<◌, ℕ, [], Option, Some, None, false, drop, is_some, length, IfOk, OnOk};
ghost use Rattle.cc_link.specs.Links.{NeverFall};
ghost use Rattle.cc_link.specs.Honest.{told};
ghost use Rattle.cc_meaning_clone.specs.Hello.{IsHelloOf};
ghost use Rattle.cc_meaning_images.specs.Forms.{IsRunOf};
ghost use Rattle.cc_meaning_images.specs.Spelling.{spelled_run};
ghost use Rattle.cc_meaning_plain.specs.Program.{program_of};
ghost use Rattle.cc_meaning_device.specs.Received.{Received};
ghost use Rattle.cc_meaning_device.specs.Complete.{moved_calls};
ghost use Rattle.cc_machine.specs.Going.{is_stop};
ghost use Rattle.cc_device.specs.Travelling.{IsOfFile, hello_payload, moves_of, course_from, paused_course, behind_call, stops_in, Keeps, CallsThere, CallDone, LastEnds, begun_course, IsLater, Stood, Offloads, IsLocal, FallsOnlySo};

use crate::capture::{came_of, entry_image};
use crate::contact::{Contact, reach};
use crate::exchange::Halt;
use cc_link::Link;
use cc_machine::{Came, Entry, Machine, Pause, call_here};
use cc_meaning::fault::Memory;
use cc_meaning::file::Job;
use cc_meaning::image::RunImage;
use cc_meaning::report::{Ending, Report};
use cc_meaning::travel::Travel;
use cc_meaning_device::{
    law_clone_is_transparent, law_each_call_migrates, law_entry_is_run, law_entry_is_short,
    law_functions_are_few, law_merges_each, law_noted_is_answered, law_plain_offloads,
    law_stream_comes, law_stream_owes,
};
use cc_meaning_nodes::frame_laws;
use cc_meaning_plain::Plain;
use std::alloc::Global;

/// Calls the clone for a state. Where it fails, the device falls back for good.
fn call_there<L: Link>(
    alloc: Global,
    link: &mut L,
    plain: &Plain,
    job: &Job,
    run: &RunImage,
    contact: &mut Contact,
) -> Result<Option<Came>, Memory>
    requires patient { 1 ≤ job.now.patience }
    requires hello { length (hello_payload job.now) ≤ 67108864 }
    requires sent { IsRunOf (program_of plain.now) run.now }
    requires short { length (spelled_run run.now) ≤ 67108864 }
    requires few { contact.old.merged < 2 ^ 64 - 1 }
    ensures calls { IfOk result (λ came. CallsThere plain.now job.now run.now contact.old (L.known link.old) (L.counts link.old)
        (L.prompt link.old) (L.known link.new) (L.counts link.new) came contact.new) }
    ensures counts { NeverFall (L.counts link.old) (L.counts link.new) }
    ensures honest { L.honest link.old ↔ L.honest link.new }
    ensures prompt { OnOk result (contact.new.end ≡ None → L.prompt link.old → L.prompt link.new) }
    ensures last { OnOk result (contact.old.end ≡ None → L.going link.old → LastEnds (L.going link.new) (L.last link.new) contact.new.end) }
{
    match reach(alloc, link, plain, job, run, contact.is_open) {
        Ok(back) => {
            contact.is_open = true;
            contact.merged += 1;
            Ok(Some(came_of(&back)))
        }
        Err(Halt::End(end)) => {
            contact.end = Some(end);
            Ok(None)
        }
        Err(Halt::Memory) => Err(Memory),
    }
}

/// The function at whose entry a run pauses: the moved one until the device fell back.
fn stops_of(moved: Option<usize>, contact: &Contact) -> Option<usize>
    ensures { result ≡ stops_in (is_some contact.now.end) moved }
{
    if contact.end.is_some() { None } else { moved }
}

/// Whether a run pauses at the entry of a function.
fn is_moved(moved: Option<usize>, contact: &Contact, function: usize) -> bool
    ensures { result ≡ is_stop (stops_in (is_some contact.now.end) moved) function }
{
    match stops_of(moved, contact) {
        Some(stop) => stop == function,
        None => false,
    }
}

/// Runs until the moved function is entered, or to the end where the device fell back.
fn run(
    alloc: Global,
    plain: &Plain,
    moved: Option<usize>,
    machine: &mut Machine,
    contact: &Contact,
) -> Result<Pause, Memory>
    requires { machine.old.next ≤ length plain.now.main.insns }
    ensures course { IfOk result (λ pause. (t : Received) → t.fallen ≡ is_some contact.now.end →
        course_from plain.now (moves_of plain.now moved) machine.old (drop machine.old.next plain.now.main.insns) t
        ≡ paused_course plain.now (moves_of plain.now moved) pause machine.new t) }
    ensures keeps { IfOk result (λ pause. Keeps machine.old pause machine.new) }
    ensures within { machine.new.next ≤ length plain.now.main.insns }
{
    let stops = stops_of(moved, contact);
    let pause = machine.run(alloc, plain, stops)?;
    Ok(pause)
}

/// Begins a run, and goes on until it pauses.
fn begin(
    alloc: Global,
    plain: &Plain,
    moved: Option<usize>,
    machine: &mut Machine,
    contact: &Contact,
) -> Result<Pause, Memory>
    requires { machine.old.next ≤ length plain.now.main.insns }
    ensures course { IfOk result (λ pause. (t : Received) → t.fallen ≡ is_some contact.now.end →
        begun_course plain.now (moves_of plain.now moved) machine.old t ≡ paused_course plain.now (moves_of plain.now moved) pause machine.new t) }
    ensures keeps { IfOk result (λ pause. Keeps machine.old pause machine.new) }
    ensures within { machine.new.next ≤ length plain.now.main.insns }
{
    match machine.begin() {
        Some(pause) => Ok(pause),
        None => run(alloc, plain, moved, machine, contact),
    }
}

/// Goes on behind a call until the run pauses again.
fn go_on(
    alloc: Global,
    plain: &Plain,
    moved: Option<usize>,
    to: u8,
    came: Came,
    machine: &mut Machine,
    contact: &Contact,
) -> Result<Pause, Memory>
    requires within { machine.old.next ≤ length plain.now.main.insns }
    requires instructions { came.instructions ≤ machine.old.instructions }
    requires words { came.words ≤ machine.old.words }
    ensures course { IfOk result (λ pause. (t : Received) → t.fallen ≡ is_some contact.now.end →
        behind_call plain.now (moves_of plain.now moved) to came machine.old t ≡ paused_course plain.now (moves_of plain.now moved) pause machine.new t) }
    ensures keeps { IfOk result (λ pause. Keeps machine.old pause machine.new) }
    ensures within { machine.new.next ≤ length plain.now.main.insns }
{
    match machine.finish_call(to, came) {
        Some(pause) => Ok(pause),
        None => run(alloc, plain, moved, machine, contact),
    }
}

/// Does the moved function at whose entry the run pauses: by the clone, and where that fails here, for good.
fn call_moved<L: Link>(
    alloc: Global,
    link: &mut L,
    plain: &Plain,
    job: &Job,
    entry: Entry,
    machine: &Machine,
    contact: &mut Contact,
) -> Result<Came, Memory>
    requires of_file { IsOfFile plain.now }
    requires function { entry.function < length plain.now.functions }
    requires instructions { machine.now.instructions ≤ 4294967296 }
    requires words { machine.now.words ≤ 4194304 }
    requires patient { 1 ≤ job.now.patience }
    requires hello { length (hello_payload job.now) ≤ 67108864 }
    requires few { contact.old.merged < 2 ^ 64 - 1 }
    requires reaching { contact.old.end ≡ None }
    ensures stands { IfOk result (λ came. (start : L) (moved : Option ℕ) → moved ≡ Some entry.function →
        Stood plain.now moved job.now contact.old (paused_course plain.now (moves_of plain.now moved) (Pause.AtEntry entry) machine.now)
        (L.known start) (L.counts start) (L.prompt start) (L.known link.old) (L.counts link.old) (L.prompt link.old) →
        Stood plain.now moved job.now contact.new (behind_call plain.now (moves_of plain.now moved) entry.to came machine.now)
        (L.known start) (L.counts start) (L.prompt start) (L.known link.new) (L.counts link.new) (L.prompt link.new)) }
    ensures done { IfOk result (λ came. CallDone machine.now contact.old ⊥ came contact.new) }
    ensures last { OnOk result (L.going link.old → LastEnds (L.going link.new) (L.last link.new) contact.new.end) }
    ensures counts { NeverFall (L.counts link.old) (L.counts link.new) }
    ensures honest { L.honest link.old ↔ L.honest link.new }
{
    law_functions_are_few();
    law_entry_is_run();
    law_entry_is_short();
    frame_laws::goes_on();
    frame_laws::nothing_more();
    frame_laws::begins_with_whole();
    let Entry {
        function,
        argument,
        ..
    } = entry;
    let instructions = machine.instructions();
    let words = machine.words();
    let run = entry_image(alloc, plain, entry, instructions, words)?;
    match call_there(alloc, link, plain, job, &run, contact)? {
        Some(came) => Ok(came),
        None => {
            let came = call_here(
                alloc,
                &plain.functions,
                function,
                argument,
                instructions,
                words,
            )?;
            Ok(came)
        }
    }
}

/// Does the function at whose entry the run pauses: the clone does a moved one until the device fell back, and every other one is done here.
fn do_call<L: Link>(
    alloc: Global,
    link: &mut L,
    plain: &Plain,
    moved: Option<usize>,
    job: &Job,
    entry: Entry,
    machine: &Machine,
    contact: &mut Contact,
) -> Result<Came, Memory>
    requires of_file { IsOfFile plain.now }
    requires moved { (i : ℕ) → moved ≡ Some i → i < length plain.now.functions }
    requires instructions { machine.now.instructions ≤ 4294967296 }
    requires words { machine.now.words ≤ 4194304 }
    requires patient { 1 ≤ job.now.patience }
    requires hello { length (hello_payload job.now) ≤ 67108864 }
    requires few { contact.old.merged < 2 ^ 64 - 1 }
    ensures stands { IfOk result (λ came. (start : L) →
        Stood plain.now moved job.now contact.old (paused_course plain.now (moves_of plain.now moved) (Pause.AtEntry entry) machine.now)
        (L.known start) (L.counts start) (L.prompt start) (L.known link.old) (L.counts link.old) (L.prompt link.old) →
        Stood plain.now moved job.now contact.new (behind_call plain.now (moves_of plain.now moved) entry.to came machine.now)
        (L.known start) (L.counts start) (L.prompt start) (L.known link.new) (L.counts link.new) (L.prompt link.new)) }
    ensures done { IfOk result (λ came. CallDone machine.now contact.old ((link.new ≡ link.old) × (contact.new ≡ contact.old)) came contact.new) }
    ensures last { OnOk result (LastEnds (L.going link.old) (L.last link.old) contact.old.end → LastEnds (L.going link.new) (L.last link.new) contact.new.end) }
    ensures unmoved { moved ≡ None → link.new ≡ link.old }
    ensures counts { NeverFall (L.counts link.old) (L.counts link.new) }
    ensures honest { L.honest link.old ↔ L.honest link.new }
{
    frame_laws::goes_on();
    frame_laws::nothing_more();
    frame_laws::begins_with_whole();
    if is_moved(moved, contact, entry.function) {
        return call_moved(alloc, link, plain, job, entry, machine, contact);
    }
    let came = call_here(
        alloc,
        &plain.functions,
        entry.function,
        entry.argument,
        machine.instructions(),
        machine.words(),
    )?;
    Ok(came)
}

/// Does the calls at which the run pauses, one after another, until it ends.
fn drive<L: Link>(
    alloc: Global,
    link: &mut L,
    plain: &Plain,
    moved: Option<usize>,
    job: &Job,
    first: Pause,
    machine: &mut Machine,
    contact: &mut Contact,
) -> Result<Ending, Memory>
    requires of_file { IsOfFile plain.now }
    requires moved { (i : ℕ) → moved ≡ Some i → i < length plain.now.functions }
    requires instructions { machine.old.instructions ≤ 4294967296 }
    requires words { machine.old.words ≤ 4194304 }
    requires patient { 1 ≤ job.now.patience }
    requires hello { length (hello_payload job.now) ≤ 67108864 }
    requires within { machine.old.next ≤ length plain.now.main.insns }
    requires later { IsLater first contact.old.merged machine.old.next }
    ensures stands { IfOk result (λ ending. (start : L) →
        Stood plain.now moved job.now contact.old (paused_course plain.now (moves_of plain.now moved) first machine.old)
        (L.known start) (L.counts start) (L.prompt start) (L.known link.old) (L.counts link.old) (L.prompt link.old) →
        Stood plain.now moved job.now contact.new (paused_course plain.now (moves_of plain.now moved) (Pause.Done ending) machine.new)
        (L.known start) (L.counts start) (L.prompt start) (L.known link.new) (L.counts link.new) (L.prompt link.new)) }
    ensures home { OnOk result (contact.new.is_open ≡ false → contact.new.end ≡ None → link.new ≡ link.old) }
    ensures last { OnOk result (LastEnds (L.going link.old) (L.last link.old) contact.old.end → LastEnds (L.going link.new) (L.last link.new) contact.new.end) }
    ensures unmoved { moved ≡ None → link.new ≡ link.old }
    ensures counts { NeverFall (L.counts link.old) (L.counts link.new) }
    ensures honest { L.honest link.old ↔ L.honest link.new }
{
    let mut pause = first;
    let _ = plain.main.insns.len();
    'calling: loop {
        match pause {
            Pause::Done(ending) => return Ok(ending),
            Pause::AtEntry(entry) => {
                let came = do_call(alloc, link, plain, moved, job, entry, machine, contact)?;
                pause = go_on(alloc, plain, moved, entry.to, came, machine, contact)?;
            }
        }
    }
}

/// Runs a plain file without arguments within the limits of a job, and moves one of its functions, or none, to a clone at the job's place.
///
/// The link is dialed where the function is entered first; a Hello with the job's file, script and main class is sent, and a Ready awaited. Each entry sends
/// the image of its state, and awaits that of the state at the function's end, which is merged. At the first fault of the link, and at a frame that isn't
/// the one that is awaited, the device falls back: it does the function itself, nothing more is called on the link, and no later call migrates.
pub fn offload<L: Link>(
    alloc: Global,
    plain: &Plain,
    moved: Option<usize>,
    job: &Job,
    link: &mut L,
) -> Result<(Report, Travel), Memory>
    requires of_file { IsOfFile plain.now }
    requires moved { (i : ℕ) → moved ≡ Some i → i < length plain.now.functions }
    requires no_arguments { job.now.args ≡ [] }
    requires instructions { job.now.limits.instructions ≤ 4294967296 }
    requires words { job.now.limits.words ≤ 4194304 }
    requires patient { 1 ≤ job.now.patience }
    requires hello { length (hello_payload job.now) ≤ 67108864 }
    // The report and the travel are those of the run over the frames of what was got, whatever came.
    ensures offloads { IfOk result (λ done. Offloads plain.now moved job.now done.0 done.1
        (L.known link.old) (L.counts link.old) (L.prompt link.old) (L.known link.new) (L.counts link.new) (link.new ≡ link.old)) }
    // After the first call that fails or gives the end nothing more is called on the link; the last call is the one that ended the travel.
    ensures last { IfOk result (λ done. L.going link.old → LastEnds (L.going link.new) (L.last link.new) done.1.fallback) }
    // Where no function is moved, nothing is.
    ensures unmoved { moved ≡ None → link.new ≡ link.old }
    // Over a fresh and honest link, to whose clone the same file was sent, the report is that of the run on one heap.
    ensures transparent { IfOk result (λ done. L.honest link.old → L.known link.old ≡ told [] [] →
        IsHelloOf (hello_payload job.now) plain.now → IsLocal plain.now job.now.limits done.0) }
    // Over such a link the device falls back only where a count of the link rose: a call failed, moved nothing, or gave the end.
    ensures complete { IfOk result (λ done. L.honest link.old → L.known link.old ≡ told [] [] →
        IsHelloOf (hello_payload job.now) plain.now → FallsOnlySo done.1.fallback (L.counts link.old) (L.counts link.new)) }
    // Over a prompt one it never falls back.
    ensures prompt { IfOk result (λ done. L.prompt link.old → L.known link.old ≡ told [] [] →
        IsHelloOf (hello_payload job.now) plain.now → done.1.fallback ≡ None) }
    // Where it didn't, and the run returned, each call of the function in `main` migrated.
    ensures migrates { IfOk result (λ done. done.1.fallback ≡ None → done.0.ending ≡ Ending.Returned →
        done.1.migrations ≡ moved_calls plain.now (moves_of plain.now moved) plain.now.main.insns) }
    ensures counts { NeverFall (L.counts link.old) (L.counts link.new) }
    ensures honest { L.honest link.old ↔ L.honest link.new }
{
    law_plain_offloads();
    law_clone_is_transparent();
    law_stream_comes();
    law_stream_owes();
    law_noted_is_answered();
    law_merges_each();
    law_each_call_migrates();
    frame_laws::goes_on();
    frame_laws::is_read_again();
    let mut machine = Machine::start(alloc, plain, job.limits)?;
    let mut contact = Contact {
        is_open: false,
        merged: 0,
        end: None,
    };
    let first = begin(alloc, plain, moved, &mut machine, &contact)?;
    let ending = drive(
        alloc,
        link,
        plain,
        moved,
        job,
        first,
        &mut machine,
        &mut contact,
    )?;
    let report = machine.report(alloc, job.limits, ending);
    let travel = Travel {
        migrations: contact.merged,
        fallback: contact.end,
    };
    Ok((report, travel))
}
