//! What the first bytes of a frame say.

use cc_meaning::fault::FrameFault;

/// The head of a frame: not all there, wrong, or how many bytes the frame has.
#[derive(Clone, Copy)]
pub enum Head {
    Short,
    Wrong(FrameFault),
    Long(usize),
}
