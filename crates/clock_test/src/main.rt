// The edges of the two clocks, a line each: the limits, the carry, the order, D at both ends of 64
// bits, and the thresholds. A time is written as seconds and nanoseconds, a reading as nanoseconds.
#![tactic(auto)]

use clock::{GlobalTime, TimeBase, VirtualLocalTime};
use std::cmp::Ordering;
use test_line::{number, signed, word, yes_no};

fn main(rt: HostRuntime) {
    limits(&rt);
    spans(&rt);
    times(&rt);
    differences(&rt);
    spans_passed(&rt);
    ends_later(&rt);
    seconds_carried(&rt);
    thresholds(&rt);
}

fn answer(rt: &impl Print, yes: bool) {
    yes_no(rt, yes);
    word(rt, b"\n");
}

fn limits(rt: &impl Print) {
    word(rt, b"limits");
    number(rt, VirtualLocalTime::MAX.0);
    number(rt, GlobalTime::SECOND);
    number(rt, GlobalTime::NANOSECONDS_MAX as u64);
    number(rt, GlobalTime::SET_SECONDS_MAX);
    number(rt, GlobalTime::RECEIVED_SECONDS_MAX);
    number(rt, GlobalTime::READ_SECONDS_MAX);
    word(rt, b"\n");
    reading(rt, 0);
    reading(rt, 1_000_000_000_000_000_000);
    reading(rt, 1_000_000_000_000_000_001);
    reading(rt, u64::MAX);
    nanoseconds(rt, 0);
    nanoseconds(rt, 999_999_999);
    nanoseconds(rt, 1_000_000_000);
    nanoseconds(rt, u32::MAX);
    ranges(rt, GlobalTime(4_294_967_298, 999_999_999));
    ranges(rt, GlobalTime(4_294_967_299, 0));
    ranges(rt, GlobalTime(4_294_967_298, 1_000_000_000));
    ranges(rt, GlobalTime(5_294_967_298, 999_999_999));
    ranges(rt, GlobalTime(5_294_967_299, 0));
}

fn reading(rt: &impl Print, t: u64) {
    word(rt, b"reading");
    number(rt, t);
    answer(rt, VirtualLocalTime(t).is_reading());
}

fn nanoseconds(rt: &impl Print, n: u32) {
    word(rt, b"nanoseconds");
    number(rt, n as u64);
    answer(rt, GlobalTime(0, n).is_time());
}

// Whether a time can be received, and whether it can be read.
fn ranges(rt: &impl Print, time: GlobalTime) {
    word(rt, b"ranges");
    number(rt, time.0);
    number(rt, time.1 as u64);
    yes_no(rt, time.is_received());
    answer(rt, time.is_read());
}

fn spans(rt: &impl Print) {
    span(rt, 0, 0);
    span(rt, 7, 12);
    span(rt, 12, 7);
    span(rt, 0, u64::MAX);
}

fn span(rt: &impl Print, from: u64, to: u64) {
    word(rt, b"span");
    number(rt, from);
    number(rt, to);
    number(rt, VirtualLocalTime(to).since(VirtualLocalTime(from)));
    word(rt, b"\n");
}

// Paper 01's own example: 3600 s 100 ns at 5 s, read at 6.01 s; then the carry and the ends.
fn times(rt: &impl Print) {
    time(rt, 3600, 100, 5_000_000_000, 6_010_000_000);
    time(rt, 100, 999_999_000, 7_000_000_000, 7_000_500_000);
    time(rt, 0, 999_999_999, 0, 0);
    time(rt, 0, 999_999_999, 0, 1);
    time(rt, 7, 5, 100, 99);
    time(rt, 4_294_967_298, 999_999_999, 0, 1_000_000_000_000_000_000);
    time(rt, 0, u32::MAX, 0, u64::MAX);
    time(rt, u64::MAX, 0, 0, 999_999_999);
    time(rt, u64::MAX, 0, 0, 1_000_000_000);
}

fn time(rt: &impl Print, s: u64, n: u32, at: u64, t: u64) {
    let base = TimeBase::new(GlobalTime(s, n), VirtualLocalTime(at));
    let now = base.time_at(VirtualLocalTime(t));
    word(rt, b"time");
    number(rt, s);
    number(rt, n as u64);
    number(rt, at);
    number(rt, t);
    word(rt, b" is");
    number(rt, now.0);
    number(rt, now.1 as u64);
    word(rt, b"\n");
}

fn differences(rt: &impl Print) {
    difference(rt, 0, 0, 0, 0);
    difference(rt, 0, 1, 0, 0);
    difference(rt, 0, 0, 0, 1);
    difference(rt, 1, 0, 0, 999_999_999);
    difference(rt, 0, 999_999_999, 1, 0);
    difference(rt, 0, 1_000_000_000, 1, 0);
    difference(rt, 5_294_967_298, 999_999_999, 0, 0);
    difference(rt, 9_223_372_036, 854_775_806, 0, 0);
    difference(rt, 9_223_372_036, 854_775_807, 0, 0);
    difference(rt, 9_223_372_036, 854_775_808, 0, 0);
    difference(rt, 0, 0, 9_223_372_036, 854_775_807);
    difference(rt, 0, 0, 9_223_372_036, 854_775_808);
    difference(rt, 0, 0, 9_223_372_036, 854_775_809);
    difference(rt, u64::MAX, u32::MAX, 0, 0);
    difference(rt, 0, 0, u64::MAX, u32::MAX);
}

fn difference(rt: &impl Print, s: u64, n: u32, r: u64, m: u32) {
    let a = GlobalTime(s, n);
    let b = GlobalTime(r, m);
    word(rt, b"difference");
    number(rt, s);
    number(rt, n as u64);
    number(rt, r);
    number(rt, m as u64);
    match clock::order(a, b) {
        Ordering::Less => word(rt, b" earlier"),
        Ordering::Equal => word(rt, b" same"),
        Ordering::Greater => word(rt, b" later"),
    }
    signed(rt, clock::minus(a, b));
    word(rt, b"\n");
}

// 10^18, the range of readings, and one more; the last of 63 bits, and one more.
const RANGE: u64 = 1_000_000_000_000_000_000;

const PAST_RANGE: u64 = 1_000_000_000_000_000_001;

const BELOW_HALF: u64 = 9_223_372_036_854_775_807;

const HALF: u64 = 9_223_372_036_854_775_808;

// D against a base's time at a reading: what has passed is none, some, 10^18 ns and more, and the base is the later.
fn spans_passed(rt: &impl Print) {
    difference_at(rt, 5, 7, 3, 9, 100, 100);
    difference_at(
        rt,
        3601,
        10_000_100,
        3600,
        100,
        5_000_000_000,
        6_010_000_000,
    );
    difference_at(rt, 3600, 0, 3600, 100, 5_000_000_000, 6_010_000_000);
    difference_at(rt, 7, 5, 7, 5, 100, 99);
    difference_at(rt, 1_000_000_000, 0, 0, 0, 0, RANGE);
    difference_at(rt, 999_999_999, 999_999_999, 0, 0, 0, RANGE);
    difference_at(rt, 1_000_000_000, 0, 0, 0, 0, PAST_RANGE);
    difference_at(rt, 1_000_000_000, 1, 0, 0, 0, PAST_RANGE);
    difference_at(rt, 1_000_000_000, 0, 0, 0, 1, PAST_RANGE);
    difference_at(rt, 0, u32::MAX, 0, u32::MAX, 0, RANGE);
    difference_at(rt, 0, 0, 0, u32::MAX, 0, u64::MAX);
}

// Both ends of D a span later, and 11 * 10^9 s between the two times.
fn ends_later(rt: &impl Print) {
    difference_at(rt, 10_223_372_036, 854_775_806, 0, 0, 0, RANGE);
    difference_at(rt, 10_223_372_036, 854_775_807, 0, 0, 0, RANGE);
    difference_at(rt, 10_223_372_036, 854_775_808, 0, 0, 0, RANGE);
    difference_at(rt, 0, 0, 8_223_372_036, 854_775_807, 0, RANGE);
    difference_at(rt, 0, 0, 8_223_372_036, 854_775_808, 0, RANGE);
    difference_at(rt, 0, 0, 8_223_372_036, 854_775_809, 0, RANGE);
    difference_at(rt, 10_223_372_036, 854_775_807, 0, 0, 0, PAST_RANGE);
    difference_at(rt, 10_223_372_036, 854_775_808, 0, 0, 0, PAST_RANGE);
    difference_at(rt, 10_223_372_036, 854_775_809, 0, 0, 0, PAST_RANGE);
    difference_at(rt, 0, 0, 9_223_372_036, 854_775_806, 0, 1);
    difference_at(rt, 0, 0, 9_223_372_036, 854_775_807, 0, 1);
    difference_at(rt, 0, 0, 9_223_372_036, 854_775_808, 0, 1);
    difference_at(rt, 10_000_000_001, 0, 0, 0, 0, RANGE);
    difference_at(rt, 10_223_372_041, 0, 0, u32::MAX, 0, RANGE);
    difference_at(rt, 10_223_372_042, 0, 0, u32::MAX, 0, RANGE);
    difference_at(rt, 10_999_999_999, 0, 0, u32::MAX, 0, RANGE);
    difference_at(rt, 11_000_000_000, 0, 0, u32::MAX, 0, RANGE);
    difference_at(rt, 11_000_000_001, 0, 0, u32::MAX, 0, RANGE);
    difference_at(rt, 0, u32::MAX, 10_999_999_999, 0, 0, RANGE);
    difference_at(rt, 0, u32::MAX, 11_000_000_000, 0, 0, RANGE);
    difference_at(rt, 0, u32::MAX, 11_000_000_001, 0, 0, RANGE);
}

// The base's seconds at 2^63 and at the last of 64 bits, where they are held.
fn seconds_carried(rt: &impl Print) {
    difference_at(rt, HALF, 0, BELOW_HALF, 999_999_999, 0, 1);
    difference_at(rt, 9_223_372_037_854_775_807, 5, BELOW_HALF, 0, 0, RANGE);
    difference_at(rt, 9_223_372_036_854_775_809, 0, HALF, 999_999_999, 0, 1);
    difference_at(rt, 9_223_372_037_854_775_808, 5, HALF, 0, 0, RANGE);
    difference_at(rt, u64::MAX, 0, 18_446_744_072_709_551_615, 0, 0, RANGE);
    difference_at(rt, u64::MAX, 0, u64::MAX, 0, 0, 999_999_999);
    difference_at(rt, u64::MAX, 0, u64::MAX, 0, 0, 1_000_000_000);
    difference_at(rt, u64::MAX, 0, u64::MAX, u32::MAX, 0, RANGE);
    difference_at(rt, u64::MAX, u32::MAX, u64::MAX, u32::MAX, 0, u64::MAX);
    difference_at(rt, u64::MAX, u32::MAX, 0, 0, 0, 0);
    difference_at(rt, 0, 0, u64::MAX, u32::MAX, 0, u64::MAX);
}

fn difference_at(rt: &impl Print, s: u64, n: u32, r: u64, m: u32, at: u64, t: u64) {
    let base = TimeBase::new(GlobalTime(r, m), VirtualLocalTime(at));
    word(rt, b"difference_at");
    number(rt, s);
    number(rt, n as u64);
    number(rt, r);
    number(rt, m as u64);
    number(rt, at);
    number(rt, t);
    word(rt, b" is");
    signed(
        rt,
        clock::minus_at(GlobalTime(s, n), base, VirtualLocalTime(t)),
    );
    word(rt, b"\n");
}

fn thresholds(rt: &impl Print) {
    threshold(rt, 500, 499);
    threshold(rt, 500, 500);
    threshold(rt, 500, 501);
    threshold(rt, 0, 0);
    threshold(rt, -500, 499);
    threshold(rt, -500, 500);
    threshold(rt, -1, 0);
    threshold(rt, 9_223_372_036_854_775_807, 9_223_372_036_854_775_806);
    threshold(rt, -9_223_372_036_854_775_808, 9_223_372_036_854_775_807);
    threshold(rt, -9_223_372_036_854_775_808, 9_223_372_036_854_775_808);
}

fn threshold(rt: &impl Print, d: i64, limit: u64) {
    word(rt, b"threshold");
    signed(rt, d);
    number(rt, limit);
    word(rt, b" future");
    answer(rt, clock::exceeds(d, limit));
    word(rt, b"threshold");
    signed(rt, d);
    number(rt, limit);
    word(rt, b" past");
    answer(rt, clock::minus_exceeds(d, limit));
}
