// Values to bytes. A line is the values and the bytes. Each kind has the ends of every field, the
// byte order of the wide one, and values out of range, which are written modulo the range.
use crate::inputs::ids;
use crate::shown;
use frame::{Frame, Fup, Protection, Sync};
use frame_write::frame_bytes;
use test_line as line;

// Paper 01's own frames first. Domain, counter, user byte 0, user byte 1, seconds.
pub fn plain_syncs(rt: &impl Print) {
    for (domain, counter, user0, user1, seconds) in [
        (1, 1, 0xAA, 0xBB, 3600),
        (2, 0, 0x00, 0x00, 100),
        (0, 0, 0x00, 0x00, 0),
        (0, 9, 0x01, 0x00, 1),
        (1, 15, 0x00, 0x01, 0x01020304),
        (15, 0, 0xFF, 0x00, u32::MAX),
        (15, 15, 0xFF, 0xFF, u32::MAX),
        (0, 15, 0x00, 0xFF, 0xFF),
        (0, 1, 0x00, 0x00, 0x0100),
        (1, 0, 0x00, 0x00, 0x010000),
        (1, 9, 0x00, 0x00, 0x01000000),
        (16, 0, 0x00, 0x00, 0),
        (0, 16, 0x00, 0x00, 0),
        (31, 25, 0x00, 0x00, 0),
        (255, 255, 0x00, 0x00, 0),
    ] {
        written(
            rt,
            Frame::Sync(Sync {
                domain,
                counter,
                user0,
                seconds,
                protection: Protection::Plain(user1),
            }),
        );
    }
}

// The same values at several counters, so with several DataIDs. Domain, counter, user byte 0,
// seconds.
pub fn secured_syncs(rt: &impl Print) {
    for (domain, counter, user0, seconds) in [
        (0, 0, 0x00, 0),
        (0, 15, 0x00, 0),
        (1, 0, 0xAA, 3600),
        (1, 1, 0xAA, 3600),
        (1, 8, 0xAA, 3600),
        (1, 9, 0xAA, 3600),
        (1, 15, 0xAA, 3600),
        (15, 0, 0x01, 1),
        (15, 9, 0xFF, 0x01020304),
        (15, 15, 0xFF, u32::MAX),
        (2, 7, 0x01, 0x80000000),
        (16, 0, 0x00, 0),
        (0, 16, 0x00, 0),
        (31, 31, 0xAA, 3600),
        (255, 255, 0xFF, u32::MAX),
    ] {
        written(
            rt,
            Frame::Sync(Sync {
                domain,
                counter,
                user0,
                seconds,
                protection: Protection::Secured,
            }),
        );
    }
}

// Paper 01's own frames first. Domain, counter, user byte 2, SGW, OVS, nanoseconds.
pub fn plain_fups(rt: &impl Print) {
    for (domain, counter, user2, sgw, ovs, nanoseconds) in [
        (2, 0, 0x00, false, 1, 499_000),
        (1, 1, 0x00, false, 0, 100),
        (0, 0, 0x00, false, 0, 0),
        (0, 9, 0x01, false, 1, 999_999_999),
        (1, 15, 0xFF, false, 2, 1_000_000_000),
        (15, 0, 0x00, false, 3, u32::MAX),
        (15, 15, 0xFF, true, 3, u32::MAX),
        (15, 9, 0x00, true, 0, 0x01020304),
        (0, 15, 0x01, true, 1, 1),
        (1, 0, 0x00, true, 2, 999_999_999),
        (16, 0, 0x00, false, 0, 0),
        (0, 16, 0x00, false, 0, 0),
        (0, 0, 0x00, false, 4, 0),
        (0, 0, 0x00, true, 4, 0),
        (0, 0, 0x00, false, 5, 0),
        (255, 255, 0x00, false, 255, 0),
    ] {
        written(
            rt,
            Frame::Fup(Fup {
                domain,
                counter,
                sgw,
                ovs,
                nanoseconds,
                protection: Protection::Plain(user2),
            }),
        );
    }
}

// The same values at several counters, so with several DataIDs. Domain, counter, SGW, OVS,
// nanoseconds.
pub fn secured_fups(rt: &impl Print) {
    for (domain, counter, sgw, ovs, nanoseconds) in [
        (0, 0, false, 0, 0),
        (0, 15, false, 0, 0),
        (2, 0, false, 1, 499_000),
        (2, 1, false, 1, 499_000),
        (2, 8, false, 1, 499_000),
        (2, 9, false, 1, 499_000),
        (2, 15, false, 1, 499_000),
        (1, 0, true, 0, 999_999_999),
        (15, 9, true, 2, 1_000_000_000),
        (15, 15, true, 3, u32::MAX),
        (1, 7, false, 3, 0x01020304),
        (16, 0, false, 0, 0),
        (0, 16, false, 0, 0),
        (0, 0, false, 4, 0),
        (34, 31, false, 5, 499_000),
        (255, 255, true, 255, u32::MAX),
    ] {
        written(
            rt,
            Frame::Fup(Fup {
                domain,
                counter,
                sgw,
                ovs,
                nanoseconds,
                protection: Protection::Secured,
            }),
        );
    }
}

// ---- the line

fn written(rt: &impl Print, frame: Frame) {
    line::word(rt, b"write");
    shown::values(rt, frame);
    shown::frame_bytes(rt, &frame_bytes(frame, ids()));
    line::word(rt, b"\n");
}
