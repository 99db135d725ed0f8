//! The bytes of a frame.

ghost use Rattle.std.specs.Prelude.{◌≡◌, ◌≤◌, ◌∷◌, [], ◌++◌, length, IfOk};
ghost use Rattle.sha1.specs.Sha1.{sha1};
ghost use Rattle.cc_meaning_nodes.specs.Frames.{spelling, frames_of, Rest};

use cc_meaning::fault::Memory;
use cc_meaning::lists::Bytes;
use cc_meaning_nodes::frame_laws;
use sha1::Sha1;
use std::alloc::{AllocError, Global};

/// The digest of a head and a payload.
pub(crate) fn digest_of(head: &[u8], payload: &[u8]) -> [u8; 20]
    ensures { result ≡ sha1 (head.now ++ payload.now) }
{
    let mut hasher = Sha1::new();
    hasher.update(head);
    hasher.update(payload);
    hasher.finalize()
}

fn spelled(alloc: Global, kind: u8, payload: &[u8]) -> Result<Vec<u8>, AllocError>
    requires { length payload.now ≤ 67108864 }
    ensures { IfOk result (λ bytes. bytes.items ≡ spelling (record { kind = kind; payload = payload.now })) }
{
    let length = (payload.len() as u32).to_be_bytes();
    let head = [kind, length[0], length[1], length[2], length[3]];
    let digest = digest_of(&head, payload);
    let mut bytes = Vec::new(alloc);
    bytes.extend_from_slice(&head)?;
    bytes.extend_from_slice(&digest)?;
    bytes.extend_from_slice(payload)?;
    Ok(bytes)
}

/// The bytes of a frame.
pub fn frame(alloc: Global, kind: u8, payload: &[u8]) -> Result<Bytes, Memory>
    requires low { 1 ≤ kind }
    requires high { kind ≤ 5 }
    requires short { length payload.now ≤ 67108864 }
    ensures spelled { IfOk result (λ bytes. bytes ≡ spelling (record { kind = kind; payload = payload.now })) }
    // They are read back as that frame, and nothing is left.
    ensures read { IfOk result (λ bytes. frames_of bytes
        ≡ record { frames = record { kind = kind; payload = payload.now } ∷ []; ending = Rest [] }) }
{
    frame_laws::is_read_alone();
    let bytes = spelled(alloc, kind, payload)?;
    Ok(Bytes::from_vec(bytes))
}
