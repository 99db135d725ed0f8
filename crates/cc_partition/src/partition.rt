//! The text of a partition of a plain file.

ghost use Rattle.std.specs.Prelude.{◌≡◌, ◌++◌, ℕ, List, IfOk, MatchOption};
ghost use Rattle.cc_partition.specs.Partition.{opening, closing, IsNamed, ReadsPartition};

use crate::name::{behind_class, place_of, text_of, units_of};
use cc_meaning_plain::Plain;
use std::alloc::{AllocError, Global};

/// Why nothing was read of a text.
#[derive(Clone, Copy)]
pub enum PartitionEnd {
    /// The text is of another form, or names no function of the file.
    OtherForm,
    /// There is no memory.
    Memory,
}

impl From<AllocError> for PartitionEnd {
    ghost use Rattle.std.specs.Prelude.{◌≡◌};
    ghost use Rattle.cc_partition.specs.declared.partition.PartitionEnd.TheVariants.{Memory};

    ghost from_gives = { λ _ end. end ≡ Memory };

    fn from(_: AllocError) -> PartitionEnd {
        PartitionEnd::Memory
    }
}

/// What is quoted in a text that moves one method.
fn quoted(text: &[u8]) -> Option<&[u8]>
    ensures { MatchOption result ((name : List ℕ) → text.now ≡ opening ++ (name ++ closing) → ⊥) (λ name. text.now ≡ opening ++ (name.now ++ closing)) }
{
    match text.strip_prefix(b"{\"moved\":[\"") {
        Some(rest) => rest.strip_suffix(b"\"]}"),
        None => None,
    }
}

/// The place of the function that a text names between its quotation marks.
fn named(alloc: Global, text: &str, plain: &Plain) -> Result<Option<usize>, AllocError>
    ensures { IfOk result (λ place. IsNamed plain.now text.now place) }
{
    let units = units_of(alloc, text)?;
    let Some(name) = behind_class(&units, plain.class.as_slice()) else {
        return Ok(None);
    };
    Ok(place_of(&plain.functions, name))
}

/// The place of the function that is moved by a partition of a plain file, or that none is: `{"moved":[]}`, or `{"moved":["NAME"]}` with the name of one of the
/// file's functions, as `LA;->f(I)I`, in UTF-8. There are no blanks and no escapes, so a name with a control character, a quotation mark, a backslash or half a
/// pair of UTF-16 isn't read.
pub fn read_partition(
    alloc: Global,
    text: &[u8],
    plain: &Plain,
) -> Result<Option<usize>, PartitionEnd>
    ensures { ReadsPartition plain.now text.now result }
{
    if text == b"{\"moved\":[]}".as_slice() {
        return Ok(None);
    }
    let Some(quoted) = quoted(text) else {
        return Err(PartitionEnd::OtherForm);
    };
    let Some(name) = text_of(quoted) else {
        return Err(PartitionEnd::OtherForm);
    };
    match named(alloc, name, plain)? {
        Some(place) => Ok(Some(place)),
        None => Err(PartitionEnd::OtherForm),
    }
}
