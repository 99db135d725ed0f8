//! The image of a method's end.

ghost use Rattle.std.specs.Prelude.{◌≡◌, IfOk};
ghost use Rattle.cc_meaning_images.specs.Spelling.{spelled_back};

use super::{Spell, encode, put_all, put_counted};
use cc_meaning::fault::Memory;
use cc_meaning::image::BackImage;
use cc_meaning::lists::Bytes;
use std::alloc::{AllocError, Global};

impl Spell for BackImage {
    ghost spelling = { spelled_back };

    fn put(&self, bytes: &mut Vec<u8>) -> Result<(), AllocError> {
        self.ending.put(bytes)?;
        self.instructions.put(bytes)?;
        self.words.put(bytes)?;
        bytes.extend_from_slice(self.statuses.as_slice())?;
        put_all(&self.statics, bytes)?;
        put_counted(&self.literals, bytes)?;
        put_counted(&self.constants, bytes)?;
        put_counted(&self.events, bytes)?;
        put_all(&self.old, bytes)?;
        put_all(&self.fresh, bytes)
    }
}

/// The bytes of the image of a method's end. Only want of memory is an error.
pub fn encode_back(alloc: Global, image: &BackImage) -> Result<Bytes, Memory>
    ensures { IfOk result (λ bytes. bytes ≡ spelled_back image.now) }
{
    encode(alloc, image)
}
