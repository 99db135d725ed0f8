//! How a device fared with its clone, and what may befall a link.

use crate::fault::{FrameFault, ImageFault};
use crate::lists::MethodIx;
use cc_list::List;

/// What a link in memory does next: bytes go up to the clone or down to the device, a call moves nothing, the link is cut,
/// a call fails, or the clone takes no more bytes.
#[derive(Clone, Copy)]
pub enum Happening {
    Up(u32),
    Down(u32),
    NotYet,
    Cut,
    Fail,
    CloneStops,
}

/// What befalls a link, in order, the next first.
pub type Happenings = List<Happening>;

/// Why no more methods migrate: dialing failed, a call of the link failed, the link ended, so many calls within one frame moved nothing, bytes were no
/// frame, a frame of this kind wasn't awaited, an image doesn't fit, or the clone refused with this status.
#[derive(Clone, Copy)]
pub enum LinkEnd {
    DialFailed,
    Failed,
    Ended,
    Waited(u32),
    BadFrame(FrameFault),
    Unexpected(u8),
    Unfit(ImageFault),
    Refused(u8),
}

/// How many method ends were merged, and why no more methods migrated, where that came to be.
#[derive(Clone, Copy)]
pub struct Travel {
    pub migrations: u64,
    pub fallback: Option<LinkEnd>,
}

/// Why a clone takes no more frames: bytes were no frame, a frame of this kind came out of order, its first frame was refused with this status,
/// bytes were no image of a state, a state made a call that only the device may make, or there was no memory.
#[derive(Clone, Copy)]
pub enum CloneEnd {
    BadFrame(FrameFault),
    BadOrder(u8),
    BadHello(u8),
    BadRun(ImageFault),
    AtPinned(MethodIx),
    OutOfMemory,
}
