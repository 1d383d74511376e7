// A frame as a line has it: by its bytes, and by its values, which are those that its kind carries.
use frame::{Frame, Fup, Protection, Sync};
use test_line::{byte, hex, number, small, word};

pub fn bytes(rt: &impl Print, list: &[u8]) {
    if list.is_empty() {
        word(rt, b" empty");
    } else {
        word(rt, b" ");
        hex(rt, list);
    }
}

// The bytes of a whole frame.
pub fn frame_bytes(rt: &impl Print, list: &[u8; 8]) {
    bytes(rt, list);
}

pub fn values(rt: &impl Print, frame: Frame) {
    match frame {
        Frame::Sync(s) => sync(rt, s),
        Frame::Fup(f) => fup(rt, f),
    }
}

fn sync(rt: &impl Print, s: Sync) {
    let protection = s.protection;
    word(rt, b" sync");
    kind(rt, protection);
    small(rt, s.domain);
    small(rt, s.counter);
    word(rt, b" user");
    byte(rt, s.user0);
    user1(rt, protection);
    word(rt, b" seconds");
    number(rt, s.seconds as u64);
}

fn fup(rt: &impl Print, f: Fup) {
    let protection = f.protection;
    word(rt, b" fup");
    kind(rt, protection);
    small(rt, f.domain);
    small(rt, f.counter);
    user2(rt, protection);
    flags(rt, f.sgw, f.ovs);
    word(rt, b" nanoseconds");
    number(rt, f.nanoseconds as u64);
}

fn kind(rt: &impl Print, protection: Protection) {
    match protection {
        Protection::Plain(_) => word(rt, b" plain"),
        Protection::Secured => word(rt, b" secured"),
    }
}

// The second user byte of a plain SYNC.
fn user1(rt: &impl Print, protection: Protection) {
    if let Protection::Plain(user) = protection {
        byte(rt, user);
    }
}

// The user byte of a plain FUP, the only one.
fn user2(rt: &impl Print, protection: Protection) {
    if let Protection::Plain(user) = protection {
        word(rt, b" user");
        byte(rt, user);
    }
}

fn flags(rt: &impl Print, sgw: bool, ovs: u8) {
    if sgw {
        word(rt, b" sgw 1 ovs");
    } else {
        word(rt, b" sgw 0 ovs");
    }
    small(rt, ovs);
}
