//! The verdict on a Hello.

ghost use Rattle.std.specs.Prelude.{◌≡◌, ◌↔◌, ℕ, IsTrue, IfOk, IfSome, MatchOption, Result};
ghost use Rattle.cc_meaning_plain.specs.declared.plain.Plain.{Plain as PlainFile};
ghost use Rattle.cc_meaning_plain.specs.Laws.{PlainOnce};
ghost use Rattle.cc_meaning_clone.specs.Hello.{NamesMain, IsJudged};
ghost use Rattle.cc_clone.specs.Parts.{FitsHello};

use crate::job::Job;
use crate::named::is_named;
use crate::payload::{Hello, parse};
use cc_meaning_clone::hello_laws;
use cc_meaning_plain::Plain;
use std::alloc::{AllocError, Global};

/// The one script of plain files.
const NO_SCRIPT: &[u8] = b"{\"classes\":[]}";

/// The status of a Hello that is malformed or of another version.
const MALFORMED: u8 = 64;

/// The status of a Hello of a program of another form.
const ANOTHER_FORM: u8 = 80;

/// Whether the main class that is named is the file's, or none is named.
fn names_main(main: &[u8], plain: &Plain) -> bool
    ensures { IsTrue result ↔ NamesMain main.now plain.now }
{
    main.is_empty() || is_named(main, plain.class.as_slice())
}

/// The plain file of a Hello, where its script and its main class fit.
fn judge_parts(alloc: Global, hello: &Hello<'_>) -> Result<Option<Job>, AllocError>
    ensures parts { IfOk result (λ read. MatchOption read
        ((plain : PlainFile) → FitsHello hello.now.main.now hello.now.file.now hello.now.script.now plain → ⊥)
        (λ plain. FitsHello hello.now.main.now hello.now.file.now hello.now.script.now plain)) }
    ensures once { IfOk result (λ read. IfSome read (λ plain. PlainOnce)) }
{
    if hello.script != NO_SCRIPT {
        return Ok(None);
    }
    let job = match Job::of(alloc, hello.file)? {
        Some(job) => job,
        None => return Ok(None),
    };
    if names_main(hello.main, job.plain()) {
        Ok(Some(job))
    } else {
        Ok(None)
    }
}

/// The plain file of a Hello, or the status by which it is refused.
pub(crate) fn judge(alloc: Global, payload: &[u8]) -> Result<Result<Job, u8>, AllocError>
    ensures judged { IfOk result (λ verdict. IsJudged payload.now verdict) }
    // There is no other verdict.
    ensures only { IfOk result (λ verdict. (other : Result PlainFile ℕ) → IsJudged payload.now other → other ≡ verdict) }
{
    hello_laws::judged_once();
    let hello = match parse(payload) {
        Some(hello) => hello,
        None => return Ok(Err(MALFORMED)),
    };
    match judge_parts(alloc, &hello)? {
        Some(job) => Ok(Ok(job)),
        None => Ok(Err(ANOTHER_FORM)),
    }
}
