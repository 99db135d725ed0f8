//! A clone that is asked to run a function.

use crate::clone_sample::{
    BACK, CUT_RUN, HELLO, HELLO_OF_ANOTHER, HELLO_OF_CLASS, READY, REFUSE_77, RUN,
};
use cc_clone::CloneNode;
use cc_meaning::fault::ImageFault;
use cc_meaning::travel::CloneEnd;
use std::alloc::Global;
use std::process::Abort;
use std::test::Fail;

/// What a clone said behind its Ready.
fn behind_ready(node: &CloneNode) -> &[u8] {
    node.replies().get(READY.len()..).unwrap_or(&[])
}

/// Feeds bytes one by one, of which none but the last is answered.
fn feed_bytes(
    rt: &impl Abort,
    node: &mut CloneNode,
    bytes: &[u8],
    said: usize,
) -> Result<(), Fail> {
    let (front, last) = bytes.split_at(bytes.len().saturating_sub(1));
    for piece in front.chunks(1) {
        node.feed(piece)?;
        assert_eq!(rt; node.replies().len(), said);
    }
    node.feed(last)?;
    Ok(())
}

#[test]
fn a_function_is_run_byte_by_byte(rt: HostRuntime) -> Result<(), Fail> {
    let mut node = CloneNode::new(rt.alloc());
    feed_bytes(&rt, &mut node, &HELLO, 0)?;
    assert_eq!(rt; node.replies(), READY.as_slice());
    feed_bytes(&rt, &mut node, &RUN, READY.len())?;
    assert_eq!(rt; behind_ready(&node), BACK.as_slice());
    assert!(rt; node.closed().is_none());
    Ok(())
}

/// A clone that was fed frames, each whole.
fn fed(alloc: Global, frames: &[&[u8]]) -> Result<CloneNode, Fail> {
    let mut node = CloneNode::new(alloc);
    for frame in frames {
        node.feed(frame)?;
    }
    Ok(node)
}

#[test]
fn each_run_is_answered(rt: HostRuntime) -> Result<(), Fail> {
    let mut node = fed(rt.alloc(), &[&HELLO_OF_CLASS, &RUN, &RUN])?;
    assert_eq!(rt; node.replies().len(), READY.len() + 2 * BACK.len());
    if node.replies().len() >= READY.len() + BACK.len() {
        node.drop_replies(READY.len() + BACK.len());
    }
    assert_eq!(rt; node.replies(), BACK.as_slice());
    Ok(())
}

#[test]
fn a_false_run_is_refused(rt: HostRuntime) -> Result<(), Fail> {
    let node = fed(rt.alloc(), &[&HELLO, &CUT_RUN, &RUN])?;
    assert_eq!(rt; behind_ready(&node), REFUSE_77.as_slice());
    assert!(rt; matches!(node.closed(), Some(CloneEnd::BadRun(ImageFault::CutOff))));
    Ok(())
}

#[test]
fn a_second_hello_closes(rt: HostRuntime) -> Result<(), Fail> {
    let node = fed(rt.alloc(), &[&HELLO, &HELLO])?;
    assert_eq!(rt; node.replies(), READY.as_slice());
    assert!(rt; matches!(node.closed(), Some(CloneEnd::BadOrder(1))));
    Ok(())
}

#[test]
fn another_main_class_is_refused(rt: HostRuntime) -> Result<(), Fail> {
    let node = fed(rt.alloc(), &[&HELLO_OF_ANOTHER])?;
    assert!(rt; matches!(node.closed(), Some(CloneEnd::BadHello(80))));
    Ok(())
}
