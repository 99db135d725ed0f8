//! The payload of a Hello.

ghost use Rattle.std.specs.Prelude.{◌≡◌, List, ℕ, MatchOption};
ghost use Rattle.cc_meaning_clone.specs.Hello.{BeginsWith, SpellsHello, IsHello};

use cc_meaning::frame::VERSION;
use cc_meaning_clone::hello_laws;
use std::str;

/// The name of the main class, the file and the script.
#[derive(Clone, Copy)]
pub(crate) struct Hello<'a> {
    pub(crate) main: &'a [u8],
    pub(crate) file: &'a [u8],
    pub(crate) script: &'a [u8],
}

/// The text at the front, whose length stands in four bytes before it, and what is behind it.
fn text(bytes: &[u8]) -> Option<(&[u8], &[u8])>
    ensures { MatchOption result ((front rest : List ℕ) → BeginsWith bytes.now front rest → ⊥)
        (λ found. BeginsWith bytes.now found.0.now found.1.now) }
{
    if bytes.len() < 4 {
        return None;
    }
    let (number, rest) = bytes.split_at(4);
    let length = u32::from_be_bytes([number[0], number[1], number[2], number[3]]) as usize;
    if rest.len() < length {
        return None;
    }
    Some(rest.split_at(length))
}

/// The parts of a Hello of this version, where it is one.
pub(crate) fn parse(payload: &[u8]) -> Option<Hello<'_>>
    ensures { MatchOption result (IsHello payload.now → ⊥) (λ hello. SpellsHello payload.now hello.main.now hello.file.now hello.script.now) }
{
    hello_laws::judged_once();
    let (version, rest) = payload.split_first()?;
    if *version != VERSION {
        return None;
    }
    let (main, rest) = text(rest)?;
    let (file, rest) = text(rest)?;
    let (script, rest) = text(rest)?;
    if !rest.is_empty() || str::from_utf8(main).is_err() {
        return None;
    }
    Some(Hello { main, file, script })
}
