//! Parts of an image, as a plain file's images have them.

ghost use Rattle.std.specs.Prelude.{◌≡◌, ◌+◌, ◌<◌, ◌^◌, ◌∷◌, [], length};
ghost use Rattle.cc_meaning.specs.declared.fault.ImageFault.{ImageFault};
ghost use Rattle.cc_meaning.specs.declared.instruction.Kind.{Kind};
ghost use Rattle.cc_meaning_images.specs.Reading.{statuses, values, none, out_alone};
ghost use Rattle.cc_wire.specs.Reading.{Reads, ReadsStatus, ReadsNumber, ReadsNothing};

use crate::reader::Reader;
use cc_meaning::fault::ImageFault;

/// The fault of a number that isn't allowed at its place.
pub fn not_allowed(at: usize) -> ImageFault
    requires { at < 2 ^ 32 }
    ensures { result ≡ ImageFault.BadKind at }
{
    ImageFault::BadKind { at: at as u32 }
}

/// The status of the one class.
pub fn status(reader: &mut Reader<'_>) -> Result<u8, ImageFault>
    requires { reader.old.at + length reader.old.rest.now < 2 ^ 32 }
    ensures reads { ReadsStatus (statuses 1 reader.old.at reader.old.rest.now) result reader.new.at reader.new.rest.now }
    ensures same { reader.new.at + length reader.new.rest.now ≡ reader.old.at + length reader.old.rest.now }
{
    let at = reader.at;
    let status = reader.byte()?;
    if status > 3 {
        return Err(not_allowed(at));
    }
    Ok(status)
}

/// The one argument, a number.
pub fn argument(reader: &mut Reader<'_>) -> Result<i32, ImageFault>
    requires { reader.old.at + length reader.old.rest.now < 2 ^ 32 }
    ensures reads { ReadsNumber (values (Kind.Plain ∷ []) reader.old.at reader.old.rest.now) result reader.new.at reader.new.rest.now }
    ensures same { reader.new.at + length reader.new.rest.now ≡ reader.old.at + length reader.old.rest.now }
{
    let number = reader.four()?;
    Ok(number.cast_signed())
}

/// A count of nothing.
pub fn none(reader: &mut Reader<'_>) -> Result<(), ImageFault>
    requires { reader.old.at + length reader.old.rest.now < 2 ^ 32 }
    ensures reads { ReadsNothing (none reader.old.at reader.old.rest.now) result reader.new.at reader.new.rest.now }
    ensures same { reader.new.at + length reader.new.rest.now ≡ reader.old.at + length reader.old.rest.now }
{
    let at = reader.at;
    if reader.four()? != 0 {
        return Err(not_allowed(at));
    }
    Ok(())
}

/// The one object, `System.out`.
pub fn out_alone(reader: &mut Reader<'_>) -> Result<(), ImageFault>
    requires { reader.old.at + length reader.old.rest.now < 2 ^ 32 }
    ensures reads { ReadsNothing (out_alone reader.old.at reader.old.rest.now) result reader.new.at reader.new.rest.now }
    ensures same { reader.new.at + length reader.new.rest.now ≡ reader.old.at + length reader.old.rest.now }
{
    let at = reader.at;
    if reader.byte()? != 0 {
        return Err(not_allowed(at));
    }
    Ok(())
}
