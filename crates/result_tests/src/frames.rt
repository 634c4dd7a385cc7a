//! Frames that are entered and left, with the values that wait in them.
use slot_frames::{Frame, Frames, Wait};
use std::test::Fail;

/// A frame whose own values and places begin there.
fn frame(base: usize, next: u32, waits: usize) -> Frame {
    Frame {
        base,
        next,
        words: 8,
        waits,
        returns: 0,
    }
}

#[test]
fn values_of_the_frame_that_runs(rt: HostRuntime) -> Result<(), Fail> {
    let mut frames = Frames::new(rt.alloc(), frame(0, 4, 0));
    frames.push_wait(Wait { of: 1, first: 0 })?;
    frames.push_wait(Wait { of: 2, first: 3 })?;
    assert!(rt; frames.latest(&[1, 2]) == Some(0) && frames.latest(&[2]) == Some(1));
    assert!(rt; frames.latest(&[]) == Some(2) && frames.latest(&[1]).is_none());
    assert!(rt; frames.first_word(1, 5) == 3 && frames.first_word(2, 5) == 5);
    frames.enter(frame(6, 9, 2))?;
    assert!(rt; frames.latest(&[2]).is_none() && frames.latest(&[]) == Some(2));
    frames.push_wait(Wait { of: 1, first: 5 })?;
    assert!(rt; frames.latest(&[1]) == Some(2) && frames.latest(&[2, 1]).is_none());
    assert!(rt; frames.leave() && frames.frame().next == 4);
    assert!(rt; frames.latest(&[1, 2]) == Some(0));
    assert!(rt; !frames.leave());
    Ok(())
}
