//! Numbers of so many bytes.

ghost use Rattle.std.specs.Prelude.{◌≡◌, ◌+◌, ◌≤◌, ◌<◌, ◌^◌, pos, length};
ghost use Rattle.cc_meaning_dex.specs.Numbers.{Within};
ghost use Rattle.cc_meaning_dex.specs.Values.{little_at, signed_little_at, number_fits};

use byteorder::{ByteOrder, LittleEndian};

/// Whether a number of so many bytes, at most so many, lies in the file.
pub fn number_fits(file: &[u8], most: usize, at: usize, size: usize) -> bool
    ensures { result ≡ number_fits file.now most at size }
{
    size <= most && size <= file.len() && at <= file.len() - size
}

/// The number of so many bytes at `at`, lowest byte first.
fn unsigned_at(file: &[u8], at: usize, size: usize) -> u64
    requires some { 1 ≤ size }
    requires few { size ≤ 8 }
    requires within { Within file.now at size }
    ensures { result ≡ little_at file.now at size }
{
    LittleEndian::read_uint(&file[at..], size)
}

/// The number of at most four bytes at `at`, lowest byte first.
pub fn word_at(file: &[u8], at: usize, size: usize) -> u32
    requires some { 1 ≤ size }
    requires few { size ≤ 4 }
    requires within { Within file.now at size }
    ensures exact { result ≡ little_at file.now at size }
    ensures small { result < 256 ^ size }
{
    unsigned_at(file, at, size) as u32
}

/// The number of so many bytes at `at`, lowest byte first, whose highest bit is a sign.
pub fn signed_at(file: &[u8], at: usize, size: usize) -> i64
    requires some { 1 ≤ size }
    requires few { size ≤ 8 }
    requires within { Within file.now at size }
    ensures { result ≡ signed_little_at file.now at size }
{
    LittleEndian::read_int(&file[at..], size)
}

/// The same of at most four bytes.
pub fn signed_word_at(file: &[u8], at: usize, size: usize) -> i32
    requires some { 1 ≤ size }
    requires few { size ≤ 4 }
    requires within { Within file.now at size }
    ensures { result ≡ signed_little_at file.now at size }
{
    signed_at(file, at, size) as i32
}
