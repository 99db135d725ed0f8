//! The frames of a stream in any pieces.

ghost use Rattle.std.specs.Prelude.{◌≡◌, IfOk, OnOk};
ghost use Rattle.cc_meaning_nodes.specs.Frames.{Frames, frames_of, frames_from, with_frames, IsPartial};
ghost use Rattle.cc_framing.specs.Reader.{joined};

use crate::reader::FrameReader;
use cc_list::List;
use cc_meaning::fault::{FrameFault, Memory};
use cc_meaning::frame::Frame;
use cc_meaning::lists::Bytes;
use cc_meaning_nodes::frame_laws;
use std::alloc::Global;

/// Feeds a whole piece, and takes each frame that comes whole. At a fault the rest of the piece is left.
/// Where memory is wanting, it stopped somewhere within the piece, and the stream cannot go on.
pub fn feed_all(
    reader: &mut FrameReader,
    frames: &mut List<Frame>,
    piece: &[u8],
) -> Result<(), Memory>
    requires { IsPartial reader.old }
    ensures frames { OnOk result (record { frames = frames.new; ending = reader.new }
        ≡ with_frames frames.old (frames_from reader.old piece.now)) }
    ensures partial { OnOk result (IsPartial reader.new) }
{
    frame_laws::nothing_more();
    let mut rest = piece;
    while !rest.is_empty() {
        match reader.feed(rest) {
            Ok(count) => {
                if let Some(frame) = reader.take() {
                    frames.push(frame)?;
                }
                rest = rest.split_at(count).1;
            }
            Err(FrameFault::Memory) => return Err(Memory),
            Err(_) => return Ok(()),
        }
    }
    Ok(())
}

/// The frames of a stream that comes in these pieces, and the reader at its end: it stands for the rest, or for the fault.
pub fn read_pieces(alloc: Global, pieces: &[Bytes]) -> Result<(List<Frame>, FrameReader), Memory>
    ensures { IfOk result (λ all. record { frames = all.0; ending = all.1 }
        ≡ frames_of (joined pieces.now)) }
{
    frame_laws::nothing_more();
    frame_laws::goes_on();
    let mut reader = FrameReader::new(alloc);
    let mut frames = List::new(alloc);
    for piece in pieces {
        feed_all(&mut reader, &mut frames, piece.as_slice())?;
    }
    Ok((frames, reader))
}
