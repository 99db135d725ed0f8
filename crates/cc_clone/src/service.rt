//! What a clone answers to a frame.

ghost use Rattle.std.specs.Prelude.{◌≡◌, ℕ, ◌≤◌, ◌++◌, length, Some, None, Result, Ok, Err, IfOk, OnOk, OnErr};
ghost use Rattle.cc_meaning_nodes.specs.Clone.{frame_bytes, refused, to_hello, to_run, Waiting, Serving};
ghost use Rattle.cc_meaning_clone.specs.Plain.{place_in};
ghost use Rattle.cc_clone.specs.Node.{served_by, IsShort, Answers, IsAnswered};

use crate::hello::judge;
use crate::job::Job;
use crate::run::{RunEnd, serve_run};
use cc_meaning::fault::Memory;
use cc_meaning::frame::{BACK, Frame, HELLO, READY, REFUSE, RUN, VERSION};
use cc_meaning::travel::CloneEnd;
use std::alloc::{AllocError, Global};

/// The status of a Run whose image is false.
const BAD_IMAGE: u8 = 77;

/// The status of a Run that calls what only the device may call.
const AT_PINNED: u8 = 69;

/// Adds a frame to the replies, or nothing.
fn say(alloc: Global, kind: u8, payload: &[u8], replies: &mut Vec<u8>) -> Result<(), AllocError>
    requires low { 1 ≤ kind }
    requires high { kind ≤ 5 }
    requires short { length payload.now ≤ 67108864 }
    ensures ok { OnOk result (replies.new.items ≡ replies.old.items ++ frame_bytes kind payload.now) }
    ensures err { OnErr result (replies.new.items ≡ replies.old.items) }
{
    match cc_framing::frame(alloc, kind, payload) {
        Ok(bytes) => replies.extend_from_slice(bytes.as_slice()),
        Err(Memory) => Err(AllocError),
    }
}

/// Refuses with a status.
fn refuse(
    alloc: Global,
    status: u8,
    cause: CloneEnd,
    replies: &mut Vec<u8>,
) -> Result<Option<CloneEnd>, AllocError>
    ensures ok { IfOk result (λ end. end ≡ Some cause) }
    ensures said { OnOk result (replies.new.items ≡ replies.old.items ++ (refused {Job = ℕ} status cause).said) }
    ensures err { OnErr result (replies.new.items ≡ replies.old.items) }
{
    say(alloc, REFUSE, &[status], replies)?;
    Ok(Some(cause))
}

/// Answers to the verdict on a Hello.
fn greet(
    alloc: Global,
    verdict: Result<Job, u8>,
    job: &mut Option<Job>,
    replies: &mut Vec<u8>,
) -> Result<Option<CloneEnd>, AllocError>
    ensures ok { IfOk result (λ end. Answers (to_hello verdict) replies.old.items replies.new.items end job.new) }
    ensures err { OnErr result (replies.new.items ≡ replies.old.items) }
{
    match verdict {
        Ok(accepted) => {
            say(alloc, READY, &[VERSION], replies)?;
            *job = Some(accepted);
            Ok(None)
        }
        Err(status) => refuse(alloc, status, CloneEnd::BadHello(status), replies),
    }
}

/// Answers to what came of a Run.
fn give_back(
    alloc: Global,
    job: &Job,
    end: RunEnd,
    replies: &mut Vec<u8>,
) -> Result<Option<CloneEnd>, AllocError>
    requires { IsShort end }
    ensures ok { IfOk result (λ cause. Answers (to_run (served_by job.now end)) replies.old.items replies.new.items cause (Some job.now)) }
    ensures err { OnErr result (replies.new.items ≡ replies.old.items) }
{
    match end {
        RunEnd::Back(payload) => {
            say(alloc, BACK, payload.as_slice(), replies)?;
            Ok(None)
        }
        RunEnd::False(fault) => refuse(alloc, BAD_IMAGE, CloneEnd::BadRun(fault), replies),
        RunEnd::Pinned(method) => refuse(alloc, AT_PINNED, CloneEnd::AtPinned(method), replies),
    }
}

/// Answers to the first frame.
fn meet(
    alloc: Global,
    job: &mut Option<Job>,
    frame: &Frame,
    replies: &mut Vec<u8>,
) -> Result<Option<CloneEnd>, AllocError>
    ensures ok { IfOk result (λ end. IsAnswered Waiting frame.now replies.old.items replies.new.items end job.new) }
    ensures err { OnErr result (replies.new.items ≡ replies.old.items) }
{
    if frame.kind != HELLO {
        return Ok(Some(CloneEnd::BadOrder(frame.kind)));
    }
    let verdict = judge(alloc, frame.payload.as_slice())?;
    greet(alloc, verdict, job, replies)
}

/// Answers to a frame after the first.
fn work(
    alloc: Global,
    job: &Job,
    frame: &Frame,
    replies: &mut Vec<u8>,
) -> Result<Option<CloneEnd>, AllocError>
    requires { length frame.now.payload ≤ 67108864 }
    ensures ok { IfOk result (λ end. IsAnswered (Serving job.now) frame.now replies.old.items replies.new.items end (Some job.now)) }
    ensures err { OnErr result (replies.new.items ≡ replies.old.items) }
{
    if frame.kind != RUN {
        return Ok(Some(CloneEnd::BadOrder(frame.kind)));
    }
    let end = serve_run(alloc, job, frame.payload.as_slice())?;
    give_back(alloc, job, end, replies)
}

/// Answers a frame, and says why the clone closes, where it does. Without memory nothing is said.
pub(crate) fn serve(
    alloc: Global,
    job: &mut Option<Job>,
    frame: Frame,
    replies: &mut Vec<u8>,
) -> Result<Option<CloneEnd>, AllocError>
    requires { length frame.payload ≤ 67108864 }
    ensures ok { IfOk result (λ end. IsAnswered (place_in job.old) frame replies.old.items replies.new.items end job.new) }
    ensures err { OnErr result (replies.new.items ≡ replies.old.items) }
{
    match job {
        None => meet(alloc, job, &frame, replies),
        Some(job) => work(alloc, job, &frame, replies),
    }
}
