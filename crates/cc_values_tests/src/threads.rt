//! The frames of a thread and its limits.

use cc_meaning::value::{Cell, Value};
use cc_thread::{PushEnd, Thread};
use std::test::Fail;

// A push of one register onto a thread: the depth and the registers that `new` was given, and whether there is room.
const PUSHES: [(u16, u32, u16, bool); 9] = [
    (0, 0, 1, true),
    (1023, 100, 1, true),
    (1024, 100, 1, false),
    (65_535, 0, 0, false),
    (0, 65_535, 1, true),
    (0, 65_536, 0, true),
    (0, 65_536, 1, false),
    (0, 4_294_967_295, 0, false),
    (1023, 1, 65_535, true),
];

#[test]
fn limits(rt: HostRuntime) {
    for (depth, registers, more, fits) in PUSHES {
        let mut thread = Thread::new(rt.alloc(), depth, registers);
        match thread.push(7, more) {
            Ok(()) => assert!(rt; fits),
            Err(end) => assert!(rt; !fits && matches!(end, PushEnd::Overflow)),
        }
        let pushed = if fits { 1 } else { 0 };
        assert_eq!(rt; thread.depth(), depth + pushed);
        assert_eq!(rt; thread.registers(), registers + pushed as u32 * more as u32);
    }
}

#[test]
fn the_second_frame_is_one_too_many(rt: HostRuntime) {
    let mut thread = Thread::new(rt.alloc(), 1023, 100);
    assert!(rt; thread.push(0, 1).is_ok());
    assert!(rt; matches!(thread.push(0, 1), Err(PushEnd::Overflow)));
    assert_eq!(rt; thread.depth(), 1024);
    assert_eq!(rt; thread.registers(), 101);
}

#[test]
fn frames_are_entered_anew(rt: HostRuntime) -> Result<(), Fail> {
    let mut thread = Thread::new(rt.alloc(), 0, 0);
    assert!(rt; thread.push(3, 2).is_ok());
    assert!(rt; thread.push(4, 5).is_ok());
    thread.set(4, Cell::Value(Value::Int(9)));
    thread.jump(12);
    assert_eq!(rt;
        (thread.top().method, thread.top().pc, thread.registers()),
        (4, 12, 7)
    );
    assert!(rt; matches!(thread.top().cells.at(4), Cell::Value(Value::Int(9))));
    thread.pop();
    assert_eq!(rt;
        (thread.top().method, thread.top().pc, thread.registers()),
        (3, 0, 2)
    );
    assert!(rt; thread.push(5, 6).is_ok());
    assert_eq!(rt;
        (
            thread.top().method,
            thread.top().pc,
            thread.top().cells.len()
        ),
        (5, 0, 6)
    );
    assert!(rt;
        thread
            .top()
            .cells
            .iter()
            .all(|cell| matches!(cell, Cell::Unset))
    );
    Ok(())
}
