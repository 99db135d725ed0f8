//! What can be spelled in bytes, and numbers and lists of it.

ghost use Rattle.std.specs.Prelude.{◌≡◌, ◌++◌, IfOk, OnOk};
ghost use Rattle.std.specs.List.{flat_map};
ghost use Rattle.cc_meaning_images.specs.Spelling.{u2, u4, u8, counted};
ghost use Rattle.cc_wire.specs.Writing.{Spelling};

mod calls;
mod end;
mod entry;
mod values;

use cc_list::List;
use cc_meaning::fault::Memory;
use cc_meaning::lists::Bytes;
pub use end::encode_back;
pub use entry::encode_run;
use std::alloc::{AllocError, Global};

/// What has a spelling in bytes. Numbers are big-endian.
pub(crate) trait Spell {
    ghost spelling: { Spelling Self };

    /// Puts the spelling behind the bytes that are there.
    fn put(&self, bytes: &mut Vec<u8>) -> Result<(), AllocError>
        ensures { OnOk result (bytes.new.items ≡ bytes.old.items ++ spelling self.now) };
}

impl Spell for u16 {
    ghost spelling = { u2 };

    fn put(&self, bytes: &mut Vec<u8>) -> Result<(), AllocError> {
        bytes.extend_from_slice(&self.to_be_bytes())
    }
}

impl Spell for u32 {
    ghost spelling = { u4 };

    fn put(&self, bytes: &mut Vec<u8>) -> Result<(), AllocError> {
        bytes.extend_from_slice(&self.to_be_bytes())
    }
}

impl Spell for u64 {
    ghost spelling = { u8 };

    fn put(&self, bytes: &mut Vec<u8>) -> Result<(), AllocError> {
        bytes.extend_from_slice(&self.to_be_bytes())
    }
}

/// Puts a count in four bytes, which are its lowest ones.
fn put_count(count: usize, bytes: &mut Vec<u8>) -> Result<(), AllocError>
    ensures { OnOk result (bytes.new.items ≡ bytes.old.items ++ u4 count) }
{
    bytes.extend_from_slice(&count.to_be_bytes()[4..])
}

/// Puts the spellings of items, one after another.
pub(crate) fn put_all<T: Spell>(items: &List<T>, bytes: &mut Vec<u8>) -> Result<(), AllocError>
    ensures { OnOk result (bytes.new.items ≡ bytes.old.items ++ flat_map T.spelling items.now) }
{
    for item in items.as_slice() {
        item.put(bytes)?;
    }
    Ok(())
}

/// Puts how many items there are, and their spellings.
pub(crate) fn put_counted<T: Spell>(items: &List<T>, bytes: &mut Vec<u8>) -> Result<(), AllocError>
    ensures { OnOk result (bytes.new.items ≡ bytes.old.items ++ counted T.spelling items.now) }
{
    put_count(items.len(), bytes)?;
    put_all(items, bytes)
}

/// The spelling of an image.
fn encode<T: Spell>(alloc: Global, image: &T) -> Result<Bytes, Memory>
    ensures { IfOk result (λ bytes. bytes ≡ T.spelling image.now) }
{
    let mut bytes = Vec::new(alloc);
    image.put(&mut bytes)?;
    Ok(Bytes::from_vec(bytes))
}
