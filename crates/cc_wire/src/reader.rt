//! A reader of numbers from left to right.

ghost use Rattle.std.specs.Prelude.{◌≡◌, ◌+◌, ◌<◌, ◌^◌, length};
ghost use Rattle.std.specs.Int.{w16, w32, w64};
ghost use Rattle.cc_meaning_images.specs.Reading.{number, byte};
ghost use Rattle.cc_wire.specs.Reading.{Reads};

use cc_meaning::fault::ImageFault;

/// What is left of the bytes, and the place where it stands.
#[derive(Drop)]
pub struct Reader<'a> {
    pub at: usize,
    pub rest: &'a [u8],
}

impl<'a> Reader<'a> {
    /// The number in one byte.
    pub fn byte(&mut self) -> Result<u8, ImageFault>
        requires { self.old.at + length self.old.rest.now < 2 ^ 64 }
        ensures reads { Reads (byte self.old.at self.old.rest.now) result self.new.at self.new.rest.now }
        ensures same { self.new.at + length self.new.rest.now ≡ self.old.at + length self.old.rest.now }
    {
        let Some((first, rest)) = self.rest.split_first() else {
            return Err(ImageFault::CutOff);
        };
        self.at += 1;
        self.rest = rest;
        Ok(*first)
    }

    /// The number in two bytes.
    pub fn two(&mut self) -> Result<u16, ImageFault>
        requires { self.old.at + length self.old.rest.now < 2 ^ 64 }
        ensures reads { Reads (number w16 self.old.at self.old.rest.now) result self.new.at self.new.rest.now }
        ensures same { self.new.at + length self.new.rest.now ≡ self.old.at + length self.old.rest.now }
    {
        if self.rest.len() < 2 {
            return Err(ImageFault::CutOff);
        }
        let (front, rest) = self.rest.split_at(2);
        self.at += 2;
        self.rest = rest;
        Ok(u16::from_be_bytes([front[0], front[1]]))
    }

    /// The number in four bytes.
    pub fn four(&mut self) -> Result<u32, ImageFault>
        requires { self.old.at + length self.old.rest.now < 2 ^ 64 }
        ensures reads { Reads (number w32 self.old.at self.old.rest.now) result self.new.at self.new.rest.now }
        ensures same { self.new.at + length self.new.rest.now ≡ self.old.at + length self.old.rest.now }
    {
        if self.rest.len() < 4 {
            return Err(ImageFault::CutOff);
        }
        let (front, rest) = self.rest.split_at(4);
        self.at += 4;
        self.rest = rest;
        Ok(u32::from_be_bytes([front[0], front[1], front[2], front[3]]))
    }

    /// The number in eight bytes.
    pub fn eight(&mut self) -> Result<u64, ImageFault>
        requires { self.old.at + length self.old.rest.now < 2 ^ 64 }
        ensures reads { Reads (number w64 self.old.at self.old.rest.now) result self.new.at self.new.rest.now }
        ensures same { self.new.at + length self.new.rest.now ≡ self.old.at + length self.old.rest.now }
    {
        if self.rest.len() < 8 {
            return Err(ImageFault::CutOff);
        }
        let (front, rest) = self.rest.split_at(8);
        self.at += 8;
        self.rest = rest;
        Ok(u64::from_be_bytes([
            front[0], front[1], front[2], front[3], front[4], front[5], front[6], front[7],
        ]))
    }
}
