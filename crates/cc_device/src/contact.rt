//! What a device asks of its clone, frame by frame.

ghost use Rattle.std.specs.Prelude.{◌≡◌, ◌↔◌, ◌≤◌, ◌<◌, ◌^◌, false, length, IfOk, OnOk};
ghost use Rattle.cc_link.specs.Links.{NeverFall};
ghost use Rattle.cc_meaning_images.specs.Forms.{IsRunOf};
ghost use Rattle.cc_meaning_images.specs.Spelling.{spelled_run};
ghost use Rattle.cc_meaning_plain.specs.Program.{program_of};
ghost use Rattle.cc_device.specs.Exchanging.{LastOf};
ghost use Rattle.cc_device.specs.Travelling.{hello_payload, hello_bytes, Reaches};
ghost use Rattle.cc_device.specs.Judging.{wrong_frame, judge_ready, judge_back, any_frame, Exchanges, Opens, JudgedBy, run_bytes};

use crate::exchange::{Halt, await_frame, send_all};
use crate::hello::hello_frame;
use cc_framing::frame;
use cc_link::{Dialed, Link};
use cc_meaning::fault::{ImageFault, Memory};
use cc_meaning::file::Job;
use cc_meaning::frame::{BACK, Frame, READY, REFUSE, RUN, VERSION};
use cc_meaning::image::{BackImage, RunImage};
use cc_meaning::lists::Bytes;
use cc_meaning::travel::LinkEnd;
use cc_meaning_nodes::frame_laws;
use cc_meaning_plain::Plain;
use cc_wire::{decode_back, encode_run};
use std::alloc::Global;

/// How a device stands with its clone: whether the Ready came, how many Backs were merged, and why no more methods migrate, where that came to be.
#[derive(Clone, Copy)]
pub(crate) struct Contact {
    pub(crate) is_open: bool,
    pub(crate) merged: u64,
    pub(crate) end: Option<LinkEnd>,
}

/// Sends bytes and awaits a frame.
fn ask<L: Link>(alloc: Global, link: &mut L, bytes: &[u8], patience: u32) -> Result<Frame, Halt>
    requires { 1 ≤ patience }
    ensures exchanges { Exchanges any_frame bytes.now patience (L.known link.old) (L.counts link.old) (L.prompt link.old) result (L.known link.new) (L.counts link.new) }
    ensures short { IfOk result (λ frame. length frame.payload ≤ 67108864) }
    ensures counts { NeverFall (L.counts link.old) (L.counts link.new) }
    ensures honest { L.honest link.old ↔ L.honest link.new }
    ensures prompt { OnOk result (L.prompt link.old → L.prompt link.new) }
    ensures last { L.going link.old → LastOf (L.going link.new) (L.last link.new) result }
{
    frame_laws::begins_with_whole();
    send_all(link, bytes, patience)?;
    await_frame(alloc, link, patience)
}

/// The end that a frame which wasn't awaited means.
#[tactic(auto, unfolding(crate::specs::Judging::wrong_frame))]
fn wrong_frame(frame: &Frame) -> LinkEnd
    ensures { result ≡ wrong_frame frame.now }
{
    if frame.kind == REFUSE && frame.payload.len() == 1 {
        LinkEnd::Refused(*frame.payload.at(0))
    } else {
        LinkEnd::Unexpected(frame.kind)
    }
}

/// Judges the frame that answers a Hello.
#[tactic(auto, unfolding(crate::specs::Judging::judge_ready))]
fn judge_ready(frame: &Frame) -> Result<(), Halt>
    ensures { JudgedBy (judge_ready frame.now) result }
{
    if frame.kind == READY && frame.payload.as_slice() == [VERSION].as_slice() {
        Ok(())
    } else {
        Err(Halt::End(wrong_frame(frame)))
    }
}

/// Judges the frame that answers a Run.
fn judge_back(
    alloc: Global,
    plain: &Plain,
    run: &RunImage,
    frame: &Frame,
) -> Result<BackImage, Halt>
    requires short { length frame.now.payload < 2 ^ 32 }
    requires sent { IsRunOf (program_of plain.now) run.now }
    ensures { JudgedBy (judge_back (program_of plain.now) run.now frame.now) result }
{
    if frame.kind != BACK {
        return Err(Halt::End(wrong_frame(frame)));
    }
    match decode_back(alloc, frame.payload.as_slice(), plain, run) {
        Ok(back) => Ok(back),
        Err(ImageFault::Memory) => Err(Halt::Memory),
        Err(fault) => Err(Halt::End(LinkEnd::Unfit(fault))),
    }
}

/// Exchanges a Hello for a Ready.
fn greet<L: Link>(alloc: Global, link: &mut L, hello: &[u8], patience: u32) -> Result<(), Halt>
    requires { 1 ≤ patience }
    ensures exchanges { Exchanges judge_ready hello.now patience (L.known link.old) (L.counts link.old) (L.prompt link.old) result (L.known link.new) (L.counts link.new) }
    ensures counts { NeverFall (L.counts link.old) (L.counts link.new) }
    ensures honest { L.honest link.old ↔ L.honest link.new }
    ensures prompt { OnOk result (L.prompt link.old → L.prompt link.new) }
    ensures last { L.going link.old → LastOf (L.going link.new) (L.last link.new) result }
{
    let frame = ask(alloc, link, hello, patience)?;
    judge_ready(&frame)
}

/// Makes the link to a clone, and exchanges a Hello for a Ready.
fn open<L: Link>(
    alloc: Global,
    link: &mut L,
    place: &str,
    hello: &[u8],
    patience: u32,
) -> Result<(), Halt>
    requires { 1 ≤ patience }
    ensures opens { Opens hello.now patience (L.known link.old) (L.counts link.old) (L.prompt link.old) result (L.known link.new) (L.counts link.new) }
    ensures counts { NeverFall (L.counts link.old) (L.counts link.new) }
    ensures honest { L.honest link.old ↔ L.honest link.new }
    ensures prompt { OnOk result (L.prompt link.old → L.prompt link.new) }
    ensures last { L.going link.old → LastOf (L.going link.new) (L.last link.new) result }
{
    match link.dial(place) {
        Dialed::Up => greet(alloc, link, hello, patience),
        Dialed::Failed => Err(Halt::End(LinkEnd::DialFailed)),
        Dialed::Memory => Err(Halt::Memory),
    }
}

/// The bytes of a Run's frame.
#[tactic(auto, unfolding(crate::specs::Judging::run_bytes))]
fn run_frame(alloc: Global, run: &RunImage) -> Result<Bytes, Memory>
    requires { length (spelled_run run.now) ≤ 67108864 }
    ensures { IfOk result (λ bytes. bytes ≡ run_bytes run.now) }
{
    let payload = encode_run(alloc, run)?;
    frame(alloc, RUN, payload.as_slice())
}

/// Exchanges the frame of a Run for its Back.
fn ask_back<L: Link>(
    alloc: Global,
    link: &mut L,
    plain: &Plain,
    run: &RunImage,
    bytes: &[u8],
    patience: u32,
) -> Result<BackImage, Halt>
    requires patient { 1 ≤ patience }
    requires sent { IsRunOf (program_of plain.now) run.now }
    ensures exchanges { Exchanges (judge_back (program_of plain.now) run.now) bytes.now patience
        (L.known link.old) (L.counts link.old) (L.prompt link.old) result (L.known link.new) (L.counts link.new) }
    ensures counts { NeverFall (L.counts link.old) (L.counts link.new) }
    ensures honest { L.honest link.old ↔ L.honest link.new }
    ensures prompt { OnOk result (L.prompt link.old → L.prompt link.new) }
    ensures last { L.going link.old → LastOf (L.going link.new) (L.last link.new) result }
{
    let frame = ask(alloc, link, bytes, patience)?;
    judge_back(alloc, plain, run, &frame)
}

/// Exchanges a Run for its Back.
fn call<L: Link>(
    alloc: Global,
    link: &mut L,
    plain: &Plain,
    run: &RunImage,
    patience: u32,
) -> Result<BackImage, Halt>
    requires patient { 1 ≤ patience }
    requires sent { IsRunOf (program_of plain.now) run.now }
    requires short { length (spelled_run run.now) ≤ 67108864 }
    ensures exchanges { Exchanges (judge_back (program_of plain.now) run.now) (run_bytes run.now) patience
        (L.known link.old) (L.counts link.old) (L.prompt link.old) result (L.known link.new) (L.counts link.new) }
    ensures counts { NeverFall (L.counts link.old) (L.counts link.new) }
    ensures honest { L.honest link.old ↔ L.honest link.new }
    ensures prompt { OnOk result (L.prompt link.old → L.prompt link.new) }
    ensures last { L.going link.old → LastOf (L.going link.new) (L.last link.new) result }
{
    match run_frame(alloc, run) {
        Ok(bytes) => ask_back(alloc, link, plain, run, bytes.as_slice(), patience),
        Err(Memory) => Err(Halt::Memory),
    }
}

/// Opens and calls.
fn open_and_call<L: Link>(
    alloc: Global,
    link: &mut L,
    plain: &Plain,
    job: &Job,
    hello: &[u8],
    run: &RunImage,
) -> Result<BackImage, Halt>
    requires patient { 1 ≤ job.now.patience }
    requires sent { IsRunOf (program_of plain.now) run.now }
    requires short { length (spelled_run run.now) ≤ 67108864 }
    ensures reaches { Reaches (program_of plain.now) hello.now job.now.patience run.now false
        (L.known link.old) (L.counts link.old) (L.prompt link.old) result (L.known link.new) (L.counts link.new) }
    ensures counts { NeverFall (L.counts link.old) (L.counts link.new) }
    ensures honest { L.honest link.old ↔ L.honest link.new }
    ensures prompt { OnOk result (L.prompt link.old → L.prompt link.new) }
    ensures last { L.going link.old → LastOf (L.going link.new) (L.last link.new) result }
{
    open(alloc, link, job.place.as_str(), hello, job.patience)?;
    call(alloc, link, plain, run, job.patience)
}

/// Calls the clone: a Hello goes first where the Ready didn't come yet.
pub(crate) fn reach<L: Link>(
    alloc: Global,
    link: &mut L,
    plain: &Plain,
    job: &Job,
    run: &RunImage,
    is_open: bool,
) -> Result<BackImage, Halt>
    requires patient { 1 ≤ job.now.patience }
    requires hello { length (hello_payload job.now) ≤ 67108864 }
    requires sent { IsRunOf (program_of plain.now) run.now }
    requires short { length (spelled_run run.now) ≤ 67108864 }
    ensures reaches { Reaches (program_of plain.now) (hello_bytes job.now) job.now.patience run.now is_open
        (L.known link.old) (L.counts link.old) (L.prompt link.old) result (L.known link.new) (L.counts link.new) }
    ensures counts { NeverFall (L.counts link.old) (L.counts link.new) }
    ensures honest { L.honest link.old ↔ L.honest link.new }
    ensures prompt { OnOk result (L.prompt link.old → L.prompt link.new) }
    ensures last { L.going link.old → LastOf (L.going link.new) (L.last link.new) result }
{
    if is_open {
        return call(alloc, link, plain, run, job.patience);
    }
    match hello_frame(alloc, job) {
        Ok(hello) => open_and_call(alloc, link, plain, job, hello.as_slice(), run),
        Err(Memory) => Err(Halt::Memory),
    }
}
