// A frame written into a lent buffer. A line is the buffer, the place, the answer, and the buffer
// after it.
use crate::inputs::ids;
use crate::shown;
use frame::{Frame, Fup, Protection, Sync};
use frame_write::{NoRoom, write_frame};
use test_line as line;

// The last place with room in 12 bytes is 4. From `usize::MAX - 7` on, 8 more would wrap.
pub fn lent(rt: &impl Print) {
    for at in [0, 2, 4, 5, 12, usize::MAX, usize::MAX - 7] {
        into(rt, plain_sync(), &mut [0xA5; 12], at);
    }
    into(rt, secured_fup(), &mut [0xA5; 12], 4);
    for at in [0, 1] {
        into(rt, plain_sync(), &mut [0xA5; 8], at);
    }
    for at in [0, usize::MAX] {
        into(rt, plain_sync(), &mut [0xA5; 7], at);
    }
    for at in [0, usize::MAX] {
        into(rt, plain_sync(), &mut [], at);
    }
}

fn into(rt: &impl Print, frame: Frame, out: &mut [u8], at: usize) {
    line::word(rt, b"buffer");
    shown::bytes(rt, out);
    line::word(rt, b" at");
    line::number(rt, at as u64);
    match write_frame(frame, ids(), out, at) {
        Ok(()) => line::word(rt, b" done"),
        Err(NoRoom) => line::word(rt, b" no-room"),
    }
    shown::bytes(rt, out);
    line::word(rt, b"\n");
}

fn plain_sync() -> Frame {
    Frame::Sync(Sync {
        domain: 1,
        counter: 1,
        user0: 0xAA,
        seconds: 3600,
        protection: Protection::Plain(0xBB),
    })
}

fn secured_fup() -> Frame {
    Frame::Fup(Fup {
        domain: 15,
        counter: 9,
        sgw: true,
        ovs: 1,
        nanoseconds: 499_000,
        protection: Protection::Secured,
    })
}
