// What no call to a node shows: a record that no node holds, readings that none gives, D itself, a frame by its
// bytes where the values are another's. The other cases of a slave's steps are inputs of the trial
// (tests/trial/slave_*).
use crate::steps::{fresh, fup, leaping, no_frame, status, sync};
use domain::Leap;

// The update counter, from 255 to 0.
pub fn updates(rt: &impl Print) {
    let mut d = fresh(rt, 1, 0, 100, 1000, 0, 0);
    d.updates = 254;
    d = sync(rt, d, 0, 0, 5);
    d = fup(rt, d, 1, 0, 0, 0);
    d = sync(rt, d, 100, 1, 5);
    d = fup(rt, d, 101, 1, 0, 0);
}

// Before the reading of the last SYNC, of its pair and of the base no time has passed. No node gives
// such readings.
pub fn earlier(rt: &impl Print) {
    let mut d = fresh(rt, 1, 0, 100, 1000, 0, 0);
    d = sync(rt, d, 5000, 3, 5);
    d = sync(rt, d, 500, 4, 5);
    d = fup(rt, d, 400, 4, 0, 9);
    d = sync(rt, d, 300, 5, 6);
    d = fup(rt, d, 200, 5, 0, 9);
}

// H 2: the row up to H, which a counter that is not good sets to 0, and no longer once it is complete. Forgotten, it
// begins anew, and under 15 the pair stays that was open.
pub fn rows(rt: &impl Print) {
    let mut d = fresh(rt, 1, 2, 100, 1000, 0, 0);
    d = sync(rt, d, 10, 5, 7);
    d = sync(rt, d, 20, 6, 7);
    d = sync(rt, d, 30, 9, 7);
    d = sync(rt, d, 40, 7, 7);
    d = sync(rt, d, 50, 8, 7);
    d = fup(rt, d, 55, 8, 0, 0);
    d = sync(rt, d, 60, 1, 8);
    d = sync(rt, d, 70, 9, 8);
    d = sync(rt, d, 1071, 2, 9);
    d = sync(rt, d, 1080, 3, 9);
    d = sync(rt, d, 1090, 4, 9);
    d = sync(rt, d, 1100, 5, 9);
}

// The widest leaps of times that are received, over the whole range of readings.
pub fn far_leaps(rt: &impl Print) {
    let mut d = fresh(rt, 15, 0, 100, 1000, 1_000_000_000_000, 1_000_000_000_000);
    d = sync(rt, d, 0, 0, 0);
    d = fup(rt, d, 0, 0, 0, 0);
    d = sync(rt, d, 0, 1, u32::MAX);
    d = fup(rt, d, 0, 1, 3, 999_999_999);
    d = sync(rt, d, 1_000_000_000_000_000_000, 2, 0);
    d = fup(rt, d, 1_000_000_000_000_000_000, 2, 0, 0);
}

// A first update clears a leap that was held without a base. No node holds one.
pub fn first_clears(rt: &impl Print) {
    let mut d = leaping(fresh(rt, 1, 0, 100, 1000, 500, 700), Leap::Past(7));
    status(rt, d, 0);
    d = sync(rt, d, 0, 0, 5);
    d = fup(rt, d, 1, 0, 0, 0);
    status(rt, d, 1);
}

// Exactly L after the base's T2, and one more; from T2 and not from the FUP or a later SYNC; cleared
// by an update; none before T2.
pub fn timeout(rt: &impl Print) {
    let mut d = fresh(rt, 1, 0, 100, 1000, 0, 0);
    d = sync(rt, d, 70, 0, 5);
    d = fup(rt, d, 170, 0, 0, 0);
    for t in [1070, 1071, 1_000_000_000_000_000_000, u64::MAX, 69] {
        status(rt, d, t);
    }
    d = sync(rt, d, 1070, 1, 5);
    status(rt, d, 1070);
    status(rt, d, 1071);
    d = fup(rt, d, 1170, 1, 0, 0);
    for t in [1170, 2070, 2071] {
        status(rt, d, t);
    }
}

// Bytes that are no frame, whatever the values: 7 and 9 of them, and an unknown type.
pub fn no_frames(rt: &impl Print) {
    let mut d = fresh(rt, 1, 0, 100, 1000, 0, 0);
    d = no_frame(rt, d, b"\x10\xBB\x16\xAA\x00\x00\x0E");
    d = no_frame(rt, d, b"\x10\xBB\x16\xAA\x00\x00\x0E\x10\x00");
    d = no_frame(rt, d, b"\x11\xBB\x16\xAA\x00\x00\x0E\x10");
    d = no_frame(rt, d, b"");
}
