//! What a clone does with a piece of its stream.

ghost use Rattle.std.specs.Prelude.{◌≡◌, ◌≤◌, length, drop, None, IfOk, OnErr};
ghost use Rattle.cc_clone.specs.Node.{next_in, IsHeld, standing_at, open_at, StepsBy, Comes, IsDue};

use crate::job::Job;
use crate::service::serve;
use cc_framing::FrameReader;
use cc_meaning::fault::FrameFault;
use cc_meaning::travel::CloneEnd;
use cc_meaning_clone::plain_laws;
use cc_meaning_nodes::frame_laws;
use std::alloc::{AllocError, Global};

/// So many bytes of the piece are done, or the clone closes.
enum Progress {
    Reads(usize),
    Closes(CloneEnd),
}

/// Reads what belongs to the present frame, and answers it where it is whole.
fn step(
    alloc: Global,
    job: &mut Option<Job>,
    reader: &mut FrameReader,
    replies: &mut Vec<u8>,
    piece: &[u8],
) -> Result<Progress, AllocError>
    requires { IsHeld reader.old }
    ensures ok { IfOk result (λ progress. StepsBy replies.old.items (open_at job.old reader.old) piece.now progress
        replies.new.items job.new reader.new) }
    ensures err { OnErr result (replies.new.items ≡ replies.old.items) }
{
    plain_laws::talk_steps();
    plain_laws::verdict_steps();
    frame_laws::begins_with_whole();
    let count = match reader.feed(piece) {
        Ok(count) => count,
        Err(FrameFault::Memory) => return Err(AllocError),
        Err(fault) => return Ok(Progress::Closes(CloneEnd::BadFrame(fault))),
    };
    match reader.take() {
        None => Ok(Progress::Reads(count)),
        Some(frame) => match serve(alloc, job, frame, replies)? {
            None => Ok(Progress::Reads(count)),
            Some(cause) => Ok(Progress::Closes(cause)),
        },
    }
}

/// Reads a whole piece, and says why the clone closes, where it does: the rest of the piece is left then.
pub(crate) fn feed(
    alloc: Global,
    job: &mut Option<Job>,
    reader: &mut FrameReader,
    replies: &mut Vec<u8>,
    piece: &[u8],
) -> Result<Option<CloneEnd>, AllocError>
    requires { IsHeld reader.old }
    ensures ok { IfOk result (λ end. Comes replies.old.items (open_at job.old reader.old) piece.now
        replies.new.items (standing_at (next_in end job.new) reader.new)) }
    ensures held { IfOk result (λ end. end ≡ None → IsHeld reader.new) }
    ensures err { OnErr result (IsDue replies.old.items (open_at job.old reader.old) piece.now replies.new.items) }
{
    plain_laws::talk_steps();
    frame_laws::nothing_more();
    let mut rest = piece;
    while !rest.is_empty() {
        match step(alloc, job, reader, replies, rest)? {
            Progress::Reads(count) => rest = rest.split_at(count).1,
            Progress::Closes(cause) => return Ok(Some(cause)),
        }
    }
    Ok(None)
}

/// Drops the first bytes.
pub(crate) fn drop_front(bytes: &mut Vec<u8>, count: usize)
    requires { count ≤ length bytes.old.items }
    ensures { bytes.new.items ≡ drop count bytes.old.items }
{
    let left = bytes.len() - count;
    bytes.rotate_left(count);
    bytes.truncate(left);
}
