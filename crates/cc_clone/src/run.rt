//! What comes of a Run.

ghost use Rattle.std.specs.Prelude.{◌≡◌, ◌≤◌, length, IfOk};
ghost use Rattle.cc_meaning_images.specs.Forms.{IsRunOf};
ghost use Rattle.cc_meaning_plain.specs.Program.{program_of};
ghost use Rattle.cc_meaning_clone.specs.Functions.{end_image};
ghost use Rattle.cc_meaning_clone.specs.Served.{served, answered};
ghost use Rattle.cc_clone.specs.Node.{served_by, IsShort};
ghost use Rattle.cc_clone.specs.Parts.{IsOfFile};

use crate::job::Job;
use cc_list::List;
use cc_machine::run_function;
use cc_meaning::fault::{ImageFault, Memory};
use cc_meaning::image::{BackImage, Contents, RunImage};
use cc_meaning::lists::{Bytes, MethodIx};
use cc_meaning::report::{CallEnd, StopCause};
use cc_meaning::value::Value;
use cc_meaning_clone::run_laws;
use cc_meaning_images::law_run_is_spelled;
use cc_meaning_plain::Plain;
use cc_wire::{decode_run, encode_back, function_numbered};
use std::alloc::{AllocError, Global};

/// The payload of the Back, the fault of the image, or the method that only the device may call.
#[derive(Drop)]
pub(crate) enum RunEnd {
    Back(Bytes),
    False(ImageFault),
    Pinned(MethodIx),
}

/// The image of the end of a function, which changes nothing but the instructions left.
fn end_image(
    alloc: Global,
    ending: CallEnd,
    instructions: u64,
    run: &RunImage,
) -> Result<BackImage, AllocError>
    ensures { IfOk result (λ back. back ≡ end_image ending instructions run.now) }
{
    Ok(BackImage {
        ending,
        instructions,
        words: run.words,
        statuses: run.statuses.copy()?,
        statics: List::new(alloc),
        literals: List::new(alloc),
        constants: List::new(alloc),
        events: List::new(alloc),
        old: List::from_vec(vec![in alloc; Contents::Nothing]?),
        fresh: List::new(alloc),
    })
}

/// Runs the function of an image, and gives the image of its end.
fn answer(alloc: Global, plain: &Plain, run: &RunImage) -> Result<BackImage, AllocError>
    requires of_file { IsOfFile plain.now }
    requires is_run { IsRunOf (program_of plain.now) run.now }
    ensures { IfOk result (λ back. back ≡ answered plain.now run.now) }
{
    run_laws::runs_have_parts();
    run_laws::answered_is();
    let Some(function) = function_numbered(plain, run.method) else {
        unreachable!();
    };
    let Value::Int(argument) = *run.args.at(0) else {
        unreachable!();
    };
    let (ending, left) = match run_function(alloc, function, argument, run.instructions)? {
        Some((value, left)) => (CallEnd::Returned(Some(Value::Int(value))), left),
        None => (CallEnd::Stopped(StopCause::Budget), 0),
    };
    end_image(alloc, ending, left, run)
}

/// Evaluates what the payload of a Run says.
pub(crate) fn serve_run(alloc: Global, job: &Job, payload: &[u8]) -> Result<RunEnd, AllocError>
    requires { length payload.now ≤ 67108864 }
    ensures served { IfOk result (λ end. served_by job.now end ≡ served job.now payload.now) }
    ensures short { IfOk result (λ end. IsShort end) }
{
    law_run_is_spelled();
    run_laws::runs_have_parts();
    run_laws::answered_is();
    run_laws::backs_are_short();
    let plain = job.plain();
    let run = match decode_run(alloc, payload, plain) {
        Ok(run) => run,
        Err(ImageFault::Memory) => return Err(AllocError),
        Err(fault) => return Ok(RunEnd::False(fault)),
    };
    let back = answer(alloc, plain, &run)?;
    match encode_back(alloc, &back) {
        Ok(bytes) => Ok(RunEnd::Back(bytes)),
        Err(Memory) => Err(AllocError),
    }
}
