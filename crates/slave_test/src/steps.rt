// The steps, each of which writes its line and gives the record back.
use crate::{inputs, record};
use clock::VirtualLocalTime;
use domain::{Domain, DomainStep, Leap};
use frame::{Frame, Fup, Protection, Sync};
use refusal::Outcome;
use slave_answer::Taken;
use slave_frame::take_frame;
use slave_fup::take_fup;
use slave_status::status_at;
use slave_sync::take_sync;
use test_line as line;

// ---- a fresh record, of domain 1

pub fn fresh(rt: &impl Print, j: u8, h: u8, f: u64, l: u64, future: u64, past: u64) -> Domain {
    let d = Domain::new(1, inputs::slave(j, h, f, l, future, past));
    line::word(rt, b"fresh J");
    line::small(rt, j);
    line::word(rt, b" H");
    line::small(rt, h);
    line::word(rt, b" F");
    line::number(rt, f);
    line::word(rt, b" L");
    line::number(rt, l);
    line::word(rt, b" future");
    line::number(rt, future);
    line::word(rt, b" past");
    line::number(rt, past);
    record::shown(rt, d);
    d
}

// The record with a leap.
pub fn leaping(d: Domain, leap: Leap) -> Domain {
    Domain {
        leap: Some(leap),
        ..d
    }
}

// ---- SYNC and FUP, by their values

// A plain one, by its counter and seconds.
pub fn sync(rt: &impl Print, d: Domain, t: u64, counter: u8, seconds: u32) -> Domain {
    line::word(rt, b"sync");
    line::small(rt, counter);
    line::reading(rt, t);
    line::number(rt, seconds as u64);
    line::word(rt, b" aa bb");
    let s = Sync {
        domain: 1,
        counter,
        user0: 0xAA,
        seconds,
        protection: Protection::Plain(0xBB),
    };
    ended(rt, take_sync(d, VirtualLocalTime(t), s))
}

// A plain one with no SGW, by its counter, OVS and nanoseconds.
pub fn fup(rt: &impl Print, d: Domain, t: u64, counter: u8, ovs: u8, nanoseconds: u32) -> Domain {
    line::word(rt, b"fup");
    line::small(rt, counter);
    line::reading(rt, t);
    line::time(rt, ovs as u64, nanoseconds);
    line::word(rt, b" 0 cc");
    let f = Fup {
        domain: 1,
        counter,
        sgw: false,
        ovs,
        nanoseconds,
        protection: Protection::Plain(0xCC),
    };
    ended(rt, take_fup(d, VirtualLocalTime(t), f))
}

// ---- bytes that are no frame

// With the values of a good SYNC.
pub fn no_frame(rt: &impl Print, d: Domain, bytes: &[u8]) -> Domain {
    line::word(rt, b"no-frame");
    line::number(rt, bytes.len() as u64);
    let values = Frame::Sync(Sync {
        domain: 1,
        counter: 6,
        user0: 0xAA,
        seconds: 3600,
        protection: Protection::Plain(0xBB),
    });
    ended(rt, take_frame(d, VirtualLocalTime(0), bytes, values))
}

// ---- the status

pub fn status(rt: &impl Print, d: Domain, t: u64) {
    line::word(rt, b"status");
    line::reading(rt, t);
    line::word(rt, b":");
    line::byte(rt, status_at(d, VirtualLocalTime(t)));
    line::word(rt, b"\n");
}

// ---- the end of a line

fn ended(rt: &impl Print, step: DomainStep<Outcome<Taken>>) -> Domain {
    record::answered(rt, step.answer);
    record::shown(rt, step.domain);
    step.domain
}
