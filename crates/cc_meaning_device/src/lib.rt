//! The run of a program over the frames that a device got: definitions, laws, and a worked example.
#![tactic(auto)]

ghost use Rattle.std.specs.Prelude.{List};
ghost use Rattle.cc_meaning_run.specs.World.{Setting};
ghost use Rattle.cc_meaning_run.specs.Eval.{Hook};
ghost use Rattle.cc_meaning_device.specs.Laws.{LeadsTo, FaithfulReports, Agrees, FaithfulFrom, ReceiverSpends, NothingMoved};
ghost use Rattle.cc_meaning_device.specs.Straight.{PlainOffloads};
ghost use Rattle.cc_meaning_device.specs.Entries.{EntryIsRun, EntryIsShort, FunctionsAreFew};
ghost use Rattle.cc_meaning_device.specs.Honest.{HonestIsLocal, StreamAnswersInOrder};
ghost use Rattle.cc_meaning_device.specs.Transparent.{NotedIsRead, CloneIsTransparent};
ghost use Rattle.cc_meaning_device.specs.Complete.{StreamComesInOrder, StreamIsOwed, NotedIsAnswered, MergesEach, EachCallMigrates};
ghost use Rattle.cc_meaning_device.specs.WorkedStraight.{GoesStraight};
ghost use Rattle.cc_meaning_device.specs.WorkedAnswers.{JudgesAnswers};
ghost use Rattle.cc_meaning_device.specs.Worked.{FollowsTheFrames, JudgesTheFrames, StopsWithin, CallsTwice};

use cc_meaning_clone::{hello_laws, plain_laws, run_laws};
use cc_meaning_images::{law_back_is_read, law_run_is_read, law_run_is_spelled};
use cc_meaning_nodes::frame_laws;
use cc_meaning_plain::{law_function_runs, law_numbers_methods, law_plain_once};

/// A run whose hook answers entries as the methods would end here reports what the run on one heap reports.
#[tactic(auto, using(crate::proofs::Faithful::faithful_reports))]
pub fn law_faithful<T, A>()
    ensures { (hook : Hook T) (s : Setting) (note : T → List A) (noted : List A) → FaithfulReports hook s (LeadsTo note noted) }
{}

/// The same, where answers are right while two things that are told of what the hook keeps agree, as they do at the start and behind each entry and instruction.
#[tactic(auto, using(crate::proofs::Faithful::faithful_from))]
pub fn law_faithful_while<T, A, B>()
    ensures { (hook : Hook T) (s : Setting) (left right : T → B) (note : T → List A) (noted : List A) → FaithfulFrom hook s (Agrees left right) (LeadsTo note noted) }
{}

/// No frame gives instructions back.
#[tactic(auto, using(crate::proofs::Received::receiver_spends))]
pub fn law_receiver_spends()
    ensures { ReceiverSpends }
{}

/// Where no method is moved, the report is that of the run on one heap, whatever frames come.
#[tactic(auto, using(crate::proofs::Received::nothing_moved))]
pub fn law_nothing_moved()
    ensures { NothingMoved }
{}

/// The image of the entry of a function that a plain file's `main` calls is one of a Run.
pub fn law_entry_is_run()
    ensures { EntryIsRun }
{
    law_numbers_methods();
    run_laws::form_is();
}

/// It has 36 bytes, so it fits a frame.
#[tactic(auto, using(crate::proofs::EntryForms::entry_is_short))]
pub fn law_entry_is_short()
    ensures { EntryIsShort }
{}

/// A plain file has fewer functions than places of 31 bits.
#[tactic(auto, using(crate::proofs::EntryForms::functions_are_few))]
pub fn law_functions_are_few()
    ensures { FunctionsAreFew }
{}
/// The run of a plain file over received frames is what its instructions come to, straight down them.
pub fn law_plain_offloads()
    ensures { PlainOffloads }
{}

/// A plain file's run over frames that answer the images that were noted reports what the run on one heap reports.
pub fn law_honest_is_local()
    ensures { HonestIsLocal }
{
    run_laws::runnable_is();
    run_laws::runs_have_parts();
    run_laws::answered_is();
    law_function_runs::<()>();
    law_back_is_read();
}

/// The frames that come of an exchange with a clone of a plain file answer the images that were sent.
pub fn law_stream_answers()
    ensures { StreamAnswersInOrder }
{
    frame_laws::goes_on();
    frame_laws::is_read_again();
    plain_laws::talk_goes_on();
    hello_laws::judged_once();
    law_plain_once();
    run_laws::runs_have_parts();
    run_laws::answered_is();
    run_laws::backs_are_short();
}

/// Each image that a plain file's run notes fits in a frame, and is the only one that is read of its bytes.
pub fn law_noted_is_read()
    ensures { NotedIsRead }
{
    law_plain_offloads();
    law_run_is_spelled();
    run_laws::runnable_is();
    run_laws::runs_have_parts();
}

/// A plain file's run that is offloaded to a clone of the same file reports what the run on one heap reports.
pub fn law_clone_is_transparent()
    ensures { CloneIsTransparent }
{
    law_noted_is_read();
    law_stream_answers();
    law_honest_is_local();
}

/// What comes of an exchange with a clone of a plain file is a front of a Ready and of the Back of each image that was sent, and has no fault.
pub fn law_stream_comes()
    ensures { StreamComesInOrder }
{
    frame_laws::goes_on();
    frame_laws::is_read_again();
    plain_laws::talk_goes_on();
    hello_laws::judged_once();
    law_plain_once();
    run_laws::runs_have_parts();
    run_laws::answered_is();
    run_laws::backs_are_short();
}

/// Where all was sent and a frame is missing, a clone of the plain file says more than was got.
pub fn law_stream_owes()
    ensures { StreamIsOwed }
{
    frame_laws::is_read_again();
    run_laws::runs_have_parts();
    run_laws::answered_is();
    run_laws::backs_are_short();
}

/// Each image that a plain file's run notes may be sent, and its Back is read as one of that Run.
pub fn law_noted_is_answered()
    ensures { NotedIsAnswered }
{
    law_plain_offloads();
    law_entry_is_run();
    law_run_is_read();
    run_laws::runnable_is();
    run_laws::runs_have_parts();
    run_laws::answered_is();
    law_back_is_read();
}

/// Where a plain file's run didn't fall back, a Back was merged for each image that it noted.
pub fn law_merges_each()
    ensures { MergesEach }
{
    law_plain_offloads();
}

/// Where it returned besides, that is one for each call of a moved function in `main`.
pub fn law_each_call_migrates()
    ensures { EachCallMigrates }
{
    law_plain_offloads();
    law_merges_each();
}

/// The run over received frames, at a worked example: a moved function adds 1 to 5, once or twice.
#[tactic(auto, using(crate::proofs::Worked::follows, crate::proofs::Worked::judges, crate::proofs::Worked::stops, crate::proofs::Worked::calls))]
pub fn worked_frames()
    ensures follows { FollowsTheFrames }
    ensures judges { JudgesTheFrames }
    ensures stops { StopsWithin }
    ensures twice { CallsTwice }
{}

/// The same, straight down the instructions of a plain file.
#[tactic(auto, using(crate::proofs::WorkedStraight::goes_straight))]
pub fn worked_straight()
    ensures { GoesStraight }
{}

/// Which frames answer the image of that example.
pub fn worked_answers()
    ensures { JudgesAnswers }
{
    law_run_is_spelled();
    run_laws::worked_images();
}
