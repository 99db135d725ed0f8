//! The plain file that a clone works for.

ghost use Rattle.std.specs.Prelude.{◌≡◌, IfOk, OnOk, MatchOption};
ghost use Rattle.cc_meaning_plain.specs.declared.plain.Plain.{Plain as PlainFile};
ghost use Rattle.cc_meaning_plain.specs.Plain.{IsPlain};
ghost use Rattle.cc_meaning_plain.specs.Laws.{PlainOnce};
ghost use Rattle.cc_clone.specs.Parts.{IsOfFile};

use cc_meaning_plain::{Plain, law_plain_once};
use cc_plain::read_plain;
use std::alloc::{AllocError, Global};
use std::marker::Model;

/// A plain file that was read of bytes.
#[derive(Drop)]
pub(crate) struct Job {
    plain: Plain,
}

impl Model for Job {
    ghost use Rattle.cc_meaning_plain.specs.declared.plain.Plain.{Plain};
    ghost use Rattle.cc_clone.specs.Parts.{IsOfFile};

    ghost Value = { Plain };

    ghost view = { λ a. a.plain };

    ghost invariant = { λ a. IsOfFile a.plain };
}

impl Job {
    /// The plain file that the bytes are, where they are one.
    pub(crate) fn of(alloc: Global, file: &[u8]) -> Result<Option<Job>, AllocError>
        ensures read { IfOk result (λ read. MatchOption read ((plain : PlainFile) → IsPlain file.now plain → ⊥) (λ plain. IsPlain file.now plain)) }
        // A file is plain in one way at most.
        ensures once { OnOk result PlainOnce }
    {
        law_plain_once();
        match read_plain(alloc, file)? {
            Some(plain) => Ok(Some(Job { plain })),
            None => Ok(None),
        }
    }

    /// The plain file.
    pub(crate) fn plain(&self) -> &Plain
        ensures same { result.now ≡ self.now }
        ensures of_file { IsOfFile result.now }
    {
        &self.plain
    }
}
