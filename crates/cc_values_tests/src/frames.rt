//! Frames of a stream that comes in pieces.

use cc_framing::{FrameReader, feed_all, frame, read_pieces};
use cc_list::List;
use cc_meaning::fault::FrameFault;
use cc_meaning::frame::Frame;
use cc_meaning::lists::Bytes;
use std::alloc::{AllocError, Global};
use std::process::Abort;
use std::test::Fail;

// Frames of the kinds 1, 3 and 5 with the payloads "abc", none, and 70 bytes 7 * i + 3. Python's hashlib made the digests.
const STREAM: [u8; 148] = [
    0x01, 0x00, 0x00, 0x00, 0x03, 0x9b, 0x55, 0x30, 0xf5, 0x5b, 0x84, 0x08, 0x56, 0x28, 0x02, 0xfd,
    0x6e, 0xc8, 0x21, 0x6a, 0xb0, 0x9f, 0x56, 0x82, 0xf9, 0x61, 0x62, 0x63, 0x03, 0x00, 0x00, 0x00,
    0x00, 0x76, 0xe0, 0x23, 0x2e, 0x67, 0xb2, 0x23, 0x7e, 0xa1, 0x10, 0x02, 0x06, 0x76, 0x82, 0x8d,
    0xec, 0xe0, 0x41, 0xd0, 0xc5, 0x05, 0x00, 0x00, 0x00, 0x46, 0x55, 0x76, 0x7f, 0xce, 0xd0, 0x76,
    0xa6, 0x9c, 0xfb, 0xdc, 0x30, 0xf0, 0x26, 0x10, 0xab, 0x0e, 0x87, 0xf6, 0xde, 0x89, 0x03, 0x0a,
    0x11, 0x18, 0x1f, 0x26, 0x2d, 0x34, 0x3b, 0x42, 0x49, 0x50, 0x57, 0x5e, 0x65, 0x6c, 0x73, 0x7a,
    0x81, 0x88, 0x8f, 0x96, 0x9d, 0xa4, 0xab, 0xb2, 0xb9, 0xc0, 0xc7, 0xce, 0xd5, 0xdc, 0xe3, 0xea,
    0xf1, 0xf8, 0xff, 0x06, 0x0d, 0x14, 0x1b, 0x22, 0x29, 0x30, 0x37, 0x3e, 0x45, 0x4c, 0x53, 0x5a,
    0x61, 0x68, 0x6f, 0x76, 0x7d, 0x84, 0x8b, 0x92, 0x99, 0xa0, 0xa7, 0xae, 0xb5, 0xbc, 0xc3, 0xca,
    0xd1, 0xd8, 0xdf, 0xe6,
];

// The frame of kind 2 with the payload "hi", by Python's hashlib.
const HI: [u8; 27] = [
    0x02, 0x00, 0x00, 0x00, 0x02, 0x1a, 0xac, 0xbb, 0x86, 0x78, 0xed, 0x9c, 0x6f, 0x2a, 0xd0, 0xbe,
    0xe9, 0xcd, 0x1c, 0x09, 0xe9, 0x5a, 0xb8, 0xca, 0x98, 0x68, 0x69,
];

fn in_pieces(alloc: Global, bytes: &[u8], size: usize) -> Result<List<Bytes>, AllocError> {
    let mut pieces = List::new(alloc);
    if size > 0 {
        for piece in bytes.chunks(size) {
            pieces.push(List::from_slice(alloc, piece)?)?;
        }
    }
    Ok(pieces)
}

fn assert_three(rt: &impl Abort, frames: &[Frame], size: usize) {
    assert_eq!(rt; frames.len(), 3, "in pieces of {size}");
    assert_eq!(rt; (frames[0].kind, frames[1].kind, frames[2].kind), (1, 3, 5));
    assert_eq!(rt; frames[0].payload.as_slice(), b"abc".as_slice());
    assert_eq!(rt; frames[1].payload.len(), 0);
    let last = frames[2].payload.as_slice();
    assert_eq!(rt; last.len(), 70);
    assert!(rt; (0..70).all(|i| last[i] as usize == (7 * i + 3) % 256));
}

#[test]
fn three_frames_in_any_pieces(rt: HostRuntime) -> Result<(), Fail> {
    for size in [1, 7, 24, 27, 29, 40, 60, 100, 148] {
        let pieces = in_pieces(rt.alloc(), &STREAM, size)?;
        let (frames, reader) = read_pieces(rt.alloc(), pieces.as_slice())?;
        assert_three(&rt, frames.as_slice(), size);
        assert_eq!(rt; reader.wanted(), 25);
    }
    Ok(())
}

#[test]
fn byte_by_byte(rt: HostRuntime) -> Result<(), Fail> {
    let mut reader = FrameReader::new(rt.alloc());
    for (i, b) in HI.iter().enumerate() {
        assert!(rt; reader.take().is_none());
        assert_eq!(rt; reader.wanted(), if i < 5 { 25 - i } else { 27 - i });
        assert_eq!(rt; reader.feed(&[*b])?, 1);
    }
    assert_eq!(rt; reader.wanted(), 0);
    assert_eq!(rt; reader.feed(&[6])?, 0, "a whole frame stands");
    let frame = reader.take().ok_or("a frame stands")?;
    assert_eq!(rt; frame.kind, 2);
    assert_eq!(rt; frame.payload.as_slice(), b"hi".as_slice());
    assert!(rt; reader.take().is_none());
    assert_eq!(rt; reader.wanted(), 25);
    Ok(())
}

#[test]
fn a_piece_stops_at_the_end_of_a_frame(rt: HostRuntime) -> Result<(), Fail> {
    let mut reader = FrameReader::new(rt.alloc());
    assert_eq!(rt; reader.feed(&STREAM)?, 28);
    assert!(rt; reader.take().is_some());
    assert_eq!(rt; reader.feed(&STREAM[28..])?, 25);
    assert!(rt; reader.take().is_some());
    assert_eq!(rt; reader.feed(&STREAM[53..])?, 95);
    assert!(rt; reader.take().is_some());
    Ok(())
}

#[test]
fn a_kind_is_known_at_the_first_byte(rt: HostRuntime) {
    for kind in [0, 6, 255] {
        let mut reader = FrameReader::new(rt.alloc());
        assert!(rt; matches!(reader.feed(&[kind]), Err(FrameFault::BadKind)));
        assert!(rt; matches!(reader.feed(&[1]), Err(FrameFault::BadKind)));
        assert!(rt; matches!(reader.feed(&[]), Err(FrameFault::BadKind)));
        assert_eq!(rt; reader.wanted(), 0);
        assert!(rt; reader.take().is_none());
    }
}

#[test]
fn a_length_is_known_at_the_fifth_byte(rt: HostRuntime) -> Result<(), Fail> {
    let mut longest = FrameReader::new(rt.alloc());
    assert_eq!(rt; longest.feed(&[1, 4, 0, 0, 0])?, 5);
    assert_eq!(rt; longest.wanted(), 67_108_864 + 20);
    let mut reader = FrameReader::new(rt.alloc());
    for b in [1, 4, 0, 0] {
        assert_eq!(rt; reader.feed(&[b])?, 1);
    }
    assert!(rt; matches!(reader.feed(&[1]), Err(FrameFault::TooLong)));
    assert!(rt; matches!(reader.feed(&[0]), Err(FrameFault::TooLong)));
    Ok(())
}

#[test]
fn a_digest_is_known_at_the_last_byte(rt: HostRuntime) -> Result<(), Fail> {
    let mut reader = FrameReader::new(rt.alloc());
    assert_eq!(rt; reader.feed(&HI[..25])?, 25);
    assert_eq!(rt; reader.feed(b"h")?, 1);
    match reader.feed(b"j") {
        Err(FrameFault::BadDigest { stated, found }) => {
            assert_eq!(rt; stated.as_slice(), &HI[5..25]);
            assert_ne!(rt; found, stated);
        }
        _ => panic!(rt; "another digest is stated"),
    }
    assert!(rt; matches!(reader.feed(b"i"), Err(FrameFault::BadDigest { .. })));
    Ok(())
}

#[test]
fn frames_are_spelled_and_read_back(rt: HostRuntime) -> Result<(), Fail> {
    let bytes = frame(rt.alloc(), 2, b"hi")?;
    assert_eq!(rt; bytes.as_slice(), HI.as_slice());
    let mut reader = FrameReader::new(rt.alloc());
    let mut frames = List::new(rt.alloc());
    feed_all(&mut reader, &mut frames, bytes.as_slice())?;
    assert_eq!(rt; frames.len(), 1);
    assert_eq!(rt; frames[0].kind, 2);
    assert_eq!(rt; frames[0].payload.as_slice(), b"hi".as_slice());
    Ok(())
}

// The SHA-1 of the head 04 000f4240 and 1,000,000 zero bytes, by Python's hashlib.
const LONG: [u8; 20] = [
    0xf7, 0xac, 0x7b, 0xef, 0x62, 0x6b, 0xf8, 0xbb, 0x15, 0x22, 0x34, 0x23, 0xf3, 0xfd, 0x6b, 0xee,
    0xbb, 0xdc, 0x64, 0x0d,
];

fn zeros(alloc: Global, len: usize) -> Result<Vec<u8>, AllocError> {
    vec![in alloc; 0u8; len]
}

#[test]
fn a_long_frame(rt: HostRuntime) -> Result<(), Fail> {
    let payload = zeros(rt.alloc(), 1_000_000)?;
    assert!(rt; payload.len() <= 67_108_864);
    let bytes = frame(rt.alloc(), 4, &payload)?;
    assert!(rt; bytes.len() > 25);
    assert_eq!(rt; &bytes.as_slice()[5..25], LONG.as_slice());
    let pieces = in_pieces(rt.alloc(), bytes.as_slice(), 65_536)?;
    let (frames, reader) = read_pieces(rt.alloc(), pieces.as_slice())?;
    assert_eq!(rt; frames.len(), 1);
    assert_eq!(rt; frames[0].kind, 4);
    assert_eq!(rt; frames[0].payload.len(), 1_000_000);
    assert_eq!(rt; reader.wanted(), 25);
    Ok(())
}
