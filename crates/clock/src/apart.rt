// How far two global times stand apart, by comparing first and then subtracting: no number here
// leaves 64 bits, and none has a sign. The order and the difference are made of it.
ghost use Rattle.std.specs.Prelude.{◌≡◌, ◌^◌, ◌≤◌};
ghost use Rattle.clock.specs.Apart.{apart_of, held_span, near_span};
ghost use Rattle.clock.specs.Time.{time_of};

use crate::GlobalTime;

// How far a time stands from another, held within 63 bits: m nanoseconds ahead, or m + 1 behind.
// Its own enum: two ways to stand, neither an error nor an absence, so `Result` or `Option` is no plainer.
#[derive(Drop)]
pub enum Apart {
    Ahead(u64),
    Behind(u64),
}

pub fn compare(a: GlobalTime, b: GlobalTime) -> Apart
    ensures { result ≡ apart_of a b }
{
    compare_parts(a, b.0, b.1 as u64)
}

// The same against a time that is given in parts: its nanoseconds may be those of a time and of all readings together.
pub(crate) fn compare_parts(a: GlobalTime, seconds: u64, nanoseconds: u64) -> Apart
    requires { nanoseconds ≤ 2 ^ 60 }
    ensures { result ≡ apart_of a (time_of seconds nanoseconds) }
{
    let more = a.1 as u64;
    let (lead, lag) = if seconds <= a.0 {
        (near_span(a.0 - seconds) + more, nanoseconds)
    } else {
        (more, near_span(seconds - a.0) + nanoseconds)
    };
    if lag <= lead {
        Apart::Ahead(held_span(lead - lag))
    } else {
        Apart::Behind(held_span(lag - (lead + 1)))
    }
}

fn held_span(m: u64) -> u64
    ensures { result ≡ held_span m }
{
    m.min(0x7FFF_FFFF_FFFF_FFFF)
}

// Seconds in nanoseconds, where 11 * 10^9 stand for more: less 2^60 nanoseconds they are beyond 63 bits all the same.
fn near_span(seconds: u64) -> u64
    ensures { result ≡ near_span seconds }
{
    seconds.min(11_000_000_000) * GlobalTime::SECOND
}
