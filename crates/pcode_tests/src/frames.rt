//! The frames of a call, field by field.
use pcode_frames::{Frame, Frames, Memory, Stack};

/// The frame of procedure 3, above a main frame of 3 words.
const INNER: Frame = Frame {
    procedure: 3,
    base: 3,
    size: 2,
    link: 0,
    back: 15,
};

/// Shows Frames::frame, Frames::ret (frame), Frames::link_up (value): the frame of a call, its
/// static links, and the same frame from its return.
#[test]
fn frame_of_a_call(rt: HostRuntime) {
    let (Ok(mut memory), Ok(mut stack), Ok(mut frames)) = (
        Memory::new(rt.alloc()),
        Stack::new(rt.alloc()),
        Frames::new(rt.alloc()),
    ) else {
        panic!(rt; "no memory");
    };
    assert!(rt; frames.start(&mut memory, 3).is_ok() && frames.frame(0).is_some());
    let called = frames.call(&mut memory, &mut stack, 3, 0, 2, 0, 15);
    assert!(rt; called.is_ok());
    let Some(inner) = frames.frame(1) else {
        panic!(rt; "no frame");
    };
    assert!(rt; inner == INNER);
    let links = [frames.link_up(0), frames.link_up(1), frames.link_up(2)];
    assert!(rt; links == [Some(1), Some(0), None]);
    assert!(rt; frames.ret(&mut memory, &mut stack, 2) == Ok(INNER));
}
