// The steps, each of which writes its line and gives the record back.
use crate::{inputs, record};
use clock::VirtualLocalTime;
use domain::{Domain, Sending};
use master_confirm::confirm;
use master_follow::follow_up;
use master_send::{is_due, send};
use master_set::set_time;
use settings::Role;
use test_line as line;

// ---- a fresh record, of domain 3

pub fn fresh(rt: &impl Print, period: u64, confirmation_time: u32) -> Domain {
    fresh_as(rt, Role::Master, period, confirmation_time)
}

pub fn fresh_as(rt: &impl Print, role: Role, period: u64, confirmation_time: u32) -> Domain {
    line::word(rt, b"fresh P");
    line::number(rt, period);
    line::word(rt, b" C");
    line::number(rt, confirmation_time as u64);
    let d = Domain::new(3, inputs::domain(role, period, confirmation_time));
    record::shown(rt, d);
    d
}

// ---- the three steps

pub fn set(rt: &impl Print, d: Domain, t: u64, seconds: u32, nanoseconds: u32) -> Domain {
    line::word(rt, b"set");
    line::time(rt, seconds as u64, nanoseconds);
    line::reading(rt, t);
    let step = set_time(d, VirtualLocalTime(t), seconds, nanoseconds);
    match step.answer {
        Ok(()) => line::word(rt, b": done 0"),
        Err(refusal) => record::refused(rt, refusal),
    }
    record::shown(rt, step.domain);
    step.domain
}

pub fn sent(rt: &impl Print, d: Domain, t: u64) -> Domain {
    line::word(rt, b"send ");
    line::reading(rt, t);
    if is_due(d, VirtualLocalTime(t)) {
        line::word(rt, b" due");
    }
    let step = send(d, VirtualLocalTime(t));
    match step.answer {
        Some(sync) => record::sync(rt, sync),
        None => line::word(rt, b": not due"),
    }
    record::shown(rt, step.domain);
    step.domain
}

pub fn confirmed(rt: &impl Print, d: Domain, t: u64, counter: u8) -> Domain {
    line::word(rt, b"confirm");
    line::small(rt, counter);
    line::reading(rt, t);
    let step = confirm(d, VirtualLocalTime(t), counter, true);
    match step.answer {
        Ok(fup) => record::fup(rt, fup),
        Err(refusal) => record::refused(rt, refusal),
    }
    record::shown(rt, step.domain);
    step.domain
}

// ---- a rule by itself

// What the confirmation finds of a SYNC of counter 0 and second 5 that was sent at reading 0 with these nanoseconds.
pub fn followed(rt: &impl Print, confirmation_time: u32, nanoseconds: u32, t: u64) {
    line::word(rt, b"follow C");
    line::number(rt, confirmation_time as u64);
    line::time(rt, 5, nanoseconds);
    line::reading(rt, t);
    let sending = Sending::Open {
        counter: 0,
        seconds: 5,
        nanoseconds,
        at: VirtualLocalTime(0),
    };
    match follow_up(confirmation_time, sending, VirtualLocalTime(t), 0, true) {
        Ok(follow) => {
            line::word(rt, b":");
            line::time(rt, follow.ovs as u64, follow.nanoseconds);
        }
        Err(refusal) => record::refused(rt, refusal),
    }
    line::word(rt, b"\n");
}
