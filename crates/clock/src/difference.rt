// The order of two global times, and their difference D with its thresholds (paper 01, "A slave's domain").
// Nothing here refuses.
ghost use Rattle.std.specs.Prelude.{◌≡◌, ◌^◌, ◌≤◌, nat_abs};
ghost use Rattle.clock.specs.Time.{time_of};
ghost use Rattle.clock.specs.Base.{time_at};
ghost use Rattle.clock.specs.Difference.{order_of, difference_of, exceeds, minus_exceeds};

use crate::apart::{Apart, compare, compare_parts};
use crate::{GlobalTime, TimeBase, VirtualLocalTime};
use std::cmp::Ordering;

// Whether a is earlier than b, the same or later: by all of their nanoseconds, where a derived order of the two fields
// would be another on nanoseconds above 999,999,999.
pub fn order(a: GlobalTime, b: GlobalTime) -> Ordering
    ensures { result ≡ order_of a b }
{
    match compare(a, b) {
        Apart::Behind(_) => Ordering::Less,
        Apart::Ahead(0) => Ordering::Equal,
        Apart::Ahead(_) => Ordering::Greater,
    }
}

// The difference D, a minus b: the nearer end where it does not fit.
pub fn minus(a: GlobalTime, b: GlobalTime) -> i64
    ensures { result ≡ difference_of a b }
{
    minus_parts(a, b.0, b.1 as u64)
}

// D against a base's time at a reading.
pub fn minus_at(a: GlobalTime, base: TimeBase, t: VirtualLocalTime) -> i64
    ensures { result ≡ difference_of a (time_at base t) }
{
    let b = base.parts_at(t);
    minus_parts(a, b.seconds, b.nanoseconds)
}

fn minus_parts(a: GlobalTime, seconds: u64, nanoseconds: u64) -> i64
    requires { nanoseconds ≤ 2 ^ 60 }
    ensures { result ≡ difference_of a (time_of seconds nanoseconds) }
{
    match compare_parts(a, seconds, nanoseconds) {
        Apart::Ahead(m) => m as i64,
        Apart::Behind(m) => -1 - (m as i64),
    }
}

// How far D is from 0.
pub fn magnitude(d: i64) -> u64
    ensures { result ≡ nat_abs d }
{
    d.unsigned_abs()
}

// Whether D exceeds a threshold. This and the next are public and named, a line each: one of both with the way as a
// parameter is no plainer.
pub fn exceeds(d: i64, threshold: u64) -> bool
    ensures { result ≡ exceeds d threshold }
{
    0 <= d && threshold < magnitude(d)
}

// Whether minus D exceeds a threshold.
pub fn minus_exceeds(d: i64, threshold: u64) -> bool
    ensures { result ≡ minus_exceeds d threshold }
{
    d < 0 && threshold < magnitude(d)
}
