//! The image of a function's end.

ghost use Rattle.std.specs.Prelude.{◌≡◌, ℕ, ◌+◌, ◌<◌, ◌^◌, ◌&&◌, ◌==◌, nat_le, cond, true, ◌∷◌, [], length, Some, IfOk};
ghost use Rattle.cc_meaning.specs.declared.image.RunImage.{RunImage as EntryImage};
ghost use Rattle.cc_meaning_images.specs.Forms.{IsRunOf};
ghost use Rattle.cc_meaning_images.specs.Reading.{ending, statuses_since, back_head, back_behind, back_by_head, back_fits, read_back};
ghost use Rattle.cc_meaning_plain.specs.declared.plain.Plain.{Plain as PlainFile};
ghost use Rattle.cc_meaning_plain.specs.Program.{program_of};
ghost use Rattle.cc_wire.specs.Reading.{Reads, ReadsStatus, ReadsNothing, Answers};
ghost use Rattle.cc_wire.specs.Backs.{int_result, head_of, ReadsBackHead, ReadsBackBehind, back_image_of};
ghost use Rattle.cc_wire.specs.declared.back.BackHead.{BackHead as EndNumbers};

use crate::parts::{self, not_allowed};
use crate::reader::Reader;
use cc_list::List;
use cc_meaning::fault::ImageFault;
use cc_meaning::image::{BackImage, Contents, RunImage};
use cc_meaning::report::{CallEnd, StopCause};
use cc_meaning::value::Value;
use cc_meaning_clone::run_laws;
use cc_meaning_plain::Plain;
use std::alloc::{AllocError, Global};

/// How the call ended, and the instructions and words that are left.
#[derive(Clone, Copy)]
pub struct BackHead {
    pub ending: CallEnd,
    pub instructions: u64,
    pub words: u32,
}

/// How a function ended: it returned a number, or stopped for want of instructions or words.
fn ending(reader: &mut Reader<'_>) -> Result<CallEnd, ImageFault>
    requires { reader.old.at + length reader.old.rest.now < 2 ^ 32 }
    ensures reads { Reads (ending (Some int_result) reader.old.at reader.old.rest.now) result reader.new.at reader.new.rest.now }
    ensures same { reader.new.at + length reader.new.rest.now ≡ reader.old.at + length reader.old.rest.now }
{
    let at = reader.at;
    match reader.byte()? {
        0 => Ok(CallEnd::Returned(Some(Value::Int(parts::argument(reader)?)))),
        2 => Ok(CallEnd::Stopped(StopCause::Budget)),
        3 => Ok(CallEnd::Stopped(StopCause::Heap)),
        _ => Err(not_allowed(at)),
    }
}

/// What stands before the status.
#[tactic(auto, unfolding(cc_meaning_images::specs::Reading::back_head, cc_meaning_images::specs::Reading::reading))]
fn back_head(reader: &mut Reader<'_>) -> Result<BackHead, ImageFault>
    requires { reader.old.at + length reader.old.rest.now < 2 ^ 32 }
    ensures reads { ReadsBackHead (back_head (Some int_result) reader.old.at reader.old.rest.now) result reader.new.at reader.new.rest.now }
    ensures same { reader.new.at + length reader.new.rest.now ≡ reader.old.at + length reader.old.rest.now }
{
    let ending = ending(reader)?;
    let instructions = reader.eight()?;
    let words = reader.four()?;
    Ok(BackHead {
        ending,
        instructions,
        words,
    })
}

/// Whether a status may come of another one.
fn may_follow(before: u8, status: u8) -> bool
    ensures { result ≡ (nat_le status 3 && cond (before == 0) true (status == before)) }
{
    status <= 3 && (before == 0 || status == before)
}

/// The status of the one class: one that was started, or failed, is so still.
fn status_since(reader: &mut Reader<'_>, before: u8) -> Result<u8, ImageFault>
    requires { reader.old.at + length reader.old.rest.now < 2 ^ 32 }
    ensures reads { ReadsStatus (statuses_since (before ∷ []) reader.old.at reader.old.rest.now) result reader.new.at reader.new.rest.now }
    ensures same { reader.new.at + length reader.new.rest.now ≡ reader.old.at + length reader.old.rest.now }
{
    let at = reader.at;
    let status = reader.byte()?;
    if !may_follow(before, status) {
        return Err(not_allowed(at));
    }
    Ok(status)
}

/// What stands behind that: the status, and nothing more.
fn back_behind(reader: &mut Reader<'_>, before: u8) -> Result<u8, ImageFault>
    requires { reader.old.at + length reader.old.rest.now < 2 ^ 32 }
    ensures { (plain : PlainFile) (head : EndNumbers) →
        ReadsBackBehind head (back_behind (program_of plain) (before ∷ []) (head_of head) reader.old.at reader.old.rest.now) result reader.new.at reader.new.rest.now }
{
    run_laws::form_is();
    let status = status_since(reader, before)?;
    parts::none(reader)?;
    parts::none(reader)?;
    parts::none(reader)?;
    Ok(status)
}

/// The image of these parts.
fn image(alloc: Global, head: BackHead, status: u8) -> Result<BackImage, AllocError>
    ensures { IfOk result (λ image. image ≡ back_image_of head status) }
{
    Ok(BackImage {
        ending: head.ending,
        instructions: head.instructions,
        words: head.words,
        statuses: List::from_vec(vec![in alloc; status]?),
        statics: List::new(alloc),
        literals: List::new(alloc),
        constants: List::new(alloc),
        events: List::new(alloc),
        old: List::from_vec(vec![in alloc; Contents::Nothing]?),
        fresh: List::new(alloc),
    })
}

/// Whether no counter is above the one that was sent.
fn fits(run: &RunImage, head: BackHead) -> bool
    ensures { (status : ℕ) → result ≡ back_fits run.now (back_image_of head status) }
{
    head.instructions <= run.instructions && head.words <= run.words
}

/// The image of the end of a function's Run that bytes spell, or the first fault of the bytes. Bytes behind it, and counters above those that were sent, are
/// faults too.
pub fn decode_back(
    alloc: Global,
    bytes: &[u8],
    plain: &Plain,
    run: &RunImage,
) -> Result<BackImage, ImageFault>
    requires short { length bytes.now < 2 ^ 32 }
    requires sent { IsRunOf (program_of plain.now) run.now }
    ensures { Answers (read_back (program_of plain.now) run.now bytes.now) result }
{
    run_laws::runnable_is();
    run_laws::form_is();
    let mut reader = Reader { at: 0, rest: bytes };
    let head = back_head(&mut reader)?;
    let status = back_behind(&mut reader, *run.statuses.at(0))?;
    if !reader.rest.is_empty() {
        return Err(ImageFault::Trailing);
    }
    if !fits(run, head) {
        return Err(ImageFault::BadCounter);
    }
    Ok(image(alloc, head, status)?)
}
