//! The header of a file: how it begins, its sizes, its sum and its signature.

ghost use Rattle.std.specs.Prelude.{◌≡◌, ◌≤◌, length, Some, None, OnOk, MatchResult};
ghost use Rattle.std.specs.List.{starts_with};
ghost use Rattle.cc_meaning_dex.specs.Faults.{header_fault, sums_fault};
ghost use Rattle.cc_meaning_dex.specs.Tables.{found_signature};

use cc_meaning::fault::DexFault;
use cc_text::{adler32, u32_at};
use sha1::Sha1;

/// The longest file that is read, in bytes.
const LONGEST_FILE: usize = 8_388_608;

/// The bytes of a header.
pub const HEADER: usize = 112;

/// The order of bytes of a file whose numbers stand lowest byte first.
const USUAL_ORDER: u32 = 0x1234_5678;

/// Judges the header: size, beginning, order of bytes, stated sizes, sum and signature.
#[tactic(auto, unfolding(cc_meaning_dex::specs::Faults::header_fault))]
pub fn check_header(file: &[u8]) -> Result<(), DexFault>
    ensures judged { MatchResult result (λ _. header_fault file.now ≡ None) (λ fault. header_fault file.now ≡ Some fault) }
    ensures whole { OnOk result (HEADER ≤ length file.now) }
{
    if file.len() > LONGEST_FILE {
        return Err(DexFault::TooLarge);
    }
    if !file.starts_with(b"dex\n035\0") {
        return Err(DexFault::NotDex035);
    }
    if file.len() < HEADER {
        return Err(DexFault::BadSize);
    }
    if u32_at(file, 40) != USUAL_ORDER {
        return Err(DexFault::NotDex035);
    }
    if u32_at(file, 36) as usize != HEADER || u32_at(file, 32) as usize != file.len() {
        return Err(DexFault::BadSize);
    }
    check_sums(file)
}

/// Judges the sum and the signature of a file that has a whole header.
#[tactic(auto, unfolding(cc_meaning_dex::specs::Faults::sums_fault))]
fn check_sums(file: &[u8]) -> Result<(), DexFault>
    requires { HEADER ≤ length file.now }
    ensures { MatchResult result (λ _. sums_fault file.now ≡ None) (λ fault. sums_fault file.now ≡ Some fault) }
{
    let stated = u32_at(file, 8);
    let found = adler32(&file[12..]);
    if stated != found {
        return Err(DexFault::BadChecksum { stated, found });
    }
    let signature = found_signature(file);
    if file[12..32] != signature[..] {
        return Err(DexFault::BadSignature);
    }
    Ok(())
}

/// The signature of all bytes behind the stated one.
fn found_signature(file: &[u8]) -> [u8; 20]
    requires { HEADER ≤ length file.now }
    ensures { result ≡ found_signature file.now }
{
    let (_, signed) = file.split_at(32);
    Sha1::digest(signed)
}
