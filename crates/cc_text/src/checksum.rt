//! The checksum Adler-32 of RFC 1950.

ghost use Rattle.std.specs.Prelude.{◌≡◌};
ghost use Rattle.cc_meaning_dex.specs.Adler32.{adler32_of};

/// The checksum of these bytes.
pub fn adler32(bytes: &[u8]) -> u32
    ensures { result ≡ adler32_of bytes.now }
{
    let mut a = 1;
    let mut b = 0;
    for byte in bytes {
        a = (a + u32::from(*byte)) % 65521;
        b = (b + a) % 65521;
    }
    b * 65536 + a
}
