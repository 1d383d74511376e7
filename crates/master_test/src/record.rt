// A record by what a master's steps change, and the frames it sends.
use domain::{Domain, Sending};
use frame::{Fup, Protection, Sync};
use refusal::Refusal;
use test_line as line;

pub fn shown(rt: &impl Print, d: Domain) {
    line::base(rt, d.base);
    sent(rt, d.sending);
    ended(rt, d.updates, d.next_counter);
}

fn sent(rt: &impl Print, sending: Sending) {
    match sending {
        Sending::Never => line::word(rt, b"; never sent"),
        Sending::Open {
            counter,
            seconds,
            nanoseconds,
            at,
        } => {
            line::word(rt, b"; open");
            line::small(rt, counter);
            line::time(rt, seconds as u64, nanoseconds);
            line::reading(rt, at.0);
        }
        Sending::Confirmed(at) => {
            line::word(rt, b"; confirmed ");
            line::reading(rt, at.0);
        }
    }
}

fn ended(rt: &impl Print, updates: u8, next_counter: u8) {
    line::word(rt, b"; updates");
    line::small(rt, updates);
    line::word(rt, b" next");
    line::small(rt, next_counter);
    line::word(rt, b"\n");
}

pub fn refused(rt: &impl Print, refusal: Refusal) {
    line::word(rt, b": refused");
    line::small(rt, refusal.number());
}

pub fn sync(rt: &impl Print, s: Sync) {
    line::word(rt, b": sync");
    line::small(rt, s.domain);
    line::small(rt, s.counter);
    line::number(rt, s.seconds as u64);
    line::byte(rt, s.user0);
    protected(rt, s.protection);
}

pub fn fup(rt: &impl Print, f: Fup) {
    line::word(rt, b": fup");
    line::small(rt, f.domain);
    line::small(rt, f.counter);
    line::time(rt, f.ovs as u64, f.nanoseconds);
    gateway(rt, f.sgw);
    protected(rt, f.protection);
}

fn gateway(rt: &impl Print, sgw: bool) {
    if sgw {
        line::word(rt, b" sgw");
    }
}

fn protected(rt: &impl Print, protection: Protection) {
    match protection {
        Protection::Plain(user) => line::byte(rt, user),
        Protection::Secured => line::word(rt, b" secured"),
    }
}
