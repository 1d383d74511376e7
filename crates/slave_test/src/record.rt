// A record by what a slave's steps change, and an answer.
use domain::{Domain, LastSync, Leap, Pair};
use refusal::Outcome;
use slave_answer::Taken;
use test_line as line;

pub fn answered(rt: &impl Print, answer: Outcome<Taken>) {
    match answer {
        Ok(Taken::Opened) => line::word(rt, b": sync-taken 0"),
        Ok(Taken::First) => line::word(rt, b": first-taken 0"),
        Ok(Taken::Updated(d)) => {
            line::word(rt, b": updated 0 D");
            line::signed(rt, d);
        }
        Err(refusal) => {
            line::word(rt, b": refused");
            line::small(rt, refusal.number());
        }
    }
}

pub fn shown(rt: &impl Print, d: Domain) {
    line::base(rt, d.base);
    paired(rt, d.pairing);
    seen(rt, d.last);
    line::word(rt, b"; user");
    line::byte(rt, d.user.0);
    line::byte(rt, d.user.1);
    line::byte(rt, d.user.2);
    line::word(rt, b" sgw");
    line::small(rt, d.sgw as u8);
    leapt(rt, d.leap);
    line::word(rt, b" updates");
    line::small(rt, d.updates);
    line::word(rt, b"\n");
}

fn paired(rt: &impl Print, pairing: Option<Pair>) {
    match pairing {
        None => line::word(rt, b"; waiting"),
        Some(pair) => {
            line::word(rt, b"; pair");
            line::small(rt, pair.counter);
            line::reading(rt, pair.at.0);
            line::number(rt, pair.seconds as u64);
            line::byte(rt, pair.user0);
            line::byte(rt, pair.user1);
        }
    }
}

fn seen(rt: &impl Print, last: LastSync) {
    match last {
        LastSync::Unknown => line::word(rt, b"; last unknown"),
        LastSync::Seen { counter, row, at } => {
            line::word(rt, b"; last");
            line::small(rt, counter);
            line::reading(rt, at.0);
            line::word(rt, b" row");
            line::small(rt, row);
        }
    }
}

fn leapt(rt: &impl Print, leap: Option<Leap>) {
    match leap {
        None => line::word(rt, b" leap none"),
        Some(Leap::Future(run)) => {
            line::word(rt, b" leap future");
            line::small(rt, run);
        }
        Some(Leap::Past(run)) => {
            line::word(rt, b" leap past");
            line::small(rt, run);
        }
    }
}
