//! The image of a method's entry.

ghost use Rattle.std.specs.Prelude.{◌≡◌, IfOk};
ghost use Rattle.cc_meaning_images.specs.Spelling.{spelled_run};

use super::{Spell, encode, put_all, put_counted};
use cc_meaning::fault::Memory;
use cc_meaning::image::RunImage;
use cc_meaning::lists::Bytes;
use std::alloc::{AllocError, Global};

impl Spell for RunImage {
    ghost spelling = { spelled_run };

    fn put(&self, bytes: &mut Vec<u8>) -> Result<(), AllocError> {
        self.method.put(bytes)?;
        self.instructions.put(bytes)?;
        self.words.put(bytes)?;
        self.depth.put(bytes)?;
        self.registers.put(bytes)?;
        bytes.extend_from_slice(self.statuses.as_slice())?;
        put_all(&self.args, bytes)?;
        put_all(&self.statics, bytes)?;
        put_counted(&self.literals, bytes)?;
        put_counted(&self.constants, bytes)?;
        put_all(&self.objects, bytes)
    }
}

/// The bytes of the image of a method's entry. Only want of memory is an error.
pub fn encode_run(alloc: Global, image: &RunImage) -> Result<Bytes, Memory>
    ensures { IfOk result (λ bytes. bytes ≡ spelled_run image.now) }
{
    encode(alloc, image)
}
