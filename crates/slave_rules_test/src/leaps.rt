// Leaps: D against the two thresholds, and the run of one that is held against the count. A leap is written with its
// run.
use domain::Leap;
use slave_update::leap_after;
use test_line as line;

// D at both sides of each threshold, thresholds of 0, and the ends of all three. A line is the future
// threshold, the past one, and D; no leap is held.
pub fn limits(rt: &impl Print) {
    for (future, past, d) in [
        (500, 700, 0),
        (500, 700, 500),
        (500, 700, 501),
        (500, 700, 701),
        (500, 700, -501),
        (500, 700, -700),
        (500, 700, -701),
        (1, 1, 1),
        (1, 1, 2),
        (1, 1, -1),
        (1, 1, -2),
        (0, 700, 9_223_372_036_854_775_807),
        (0, 700, -701),
        (500, 0, -9_223_372_036_854_775_808),
        (500, 0, 501),
        (0, 0, 1),
        (0, 0, -1),
        (0, 0, 0),
        (1_000_000_000_000, 1_000_000_000_000, 1_000_000_000_000),
        (1_000_000_000_000, 1_000_000_000_000, 1_000_000_000_001),
        (1_000_000_000_000, 1_000_000_000_000, -1_000_000_000_000),
        (1_000_000_000_000, 1_000_000_000_000, -1_000_000_000_001),
        (9_223_372_036_854_775_806, 1, 9_223_372_036_854_775_807),
        (9_223_372_036_854_775_807, 1, 9_223_372_036_854_775_807),
        (1, 9_223_372_036_854_775_807, -9_223_372_036_854_775_808),
        (1, 9_223_372_036_854_775_808, -9_223_372_036_854_775_808),
        (u64::MAX, u64::MAX, -9_223_372_036_854_775_808),
    ] {
        limit(rt, future, past, d);
    }
}

fn limit(rt: &impl Print, future: u64, past: u64, d: i64) {
    line::word(rt, b"leap");
    line::number(rt, future);
    line::number(rt, past);
    line::signed(rt, d);
    line::word(rt, b":");
    leapt(rt, leap_after(future, past, 1, None, d));
    line::word(rt, b"\n");
}

// Thresholds 500 and 700. A line is the count, the leap held, and D. First one update within both thresholds after each
// run about the count; then runs and counts that no record holds.
pub fn runs(rt: &impl Print) {
    for (count, held, d) in [
        (1, None, 0),
        (255, None, 0),
        (1, Some(Leap::Future(0)), 0),
        (1, Some(Leap::Past(0)), 0),
        (2, Some(Leap::Future(0)), 0),
        (2, Some(Leap::Future(1)), 0),
        (2, Some(Leap::Past(0)), 0),
        (2, Some(Leap::Past(1)), 0),
        (3, Some(Leap::Future(1)), 500),
        (3, Some(Leap::Future(1)), -700),
        (3, Some(Leap::Past(1)), 500),
        (3, Some(Leap::Past(1)), -700),
        (255, Some(Leap::Future(253)), 0),
        (255, Some(Leap::Future(254)), 0),
        (255, Some(Leap::Past(253)), 0),
        (255, Some(Leap::Past(254)), 0),
        (0, Some(Leap::Future(0)), 0),
        (0, Some(Leap::Past(255)), 0),
        (1, Some(Leap::Future(255)), 0),
        (255, Some(Leap::Future(255)), 0),
        (3, Some(Leap::Past(200)), 0),
    ] {
        run(rt, count, held, d);
    }
}

// A leap while none is held, one the same way, one the other way; whatever the count and the run.
pub fn anew(rt: &impl Print) {
    for (count, held, d) in [
        (3, None, 501),
        (3, None, -701),
        (3, Some(Leap::Future(2)), 501),
        (3, Some(Leap::Future(2)), -701),
        (3, Some(Leap::Past(2)), 501),
        (3, Some(Leap::Past(2)), -701),
        (1, Some(Leap::Past(0)), 501),
        (0, Some(Leap::Future(255)), -701),
    ] {
        run(rt, count, held, d);
    }
}

fn run(rt: &impl Print, count: u8, held: Option<Leap>, d: i64) {
    line::word(rt, b"run");
    line::small(rt, count);
    leapt(rt, held);
    line::signed(rt, d);
    line::word(rt, b":");
    leapt(rt, leap_after(500, 700, count, held, d));
    line::word(rt, b"\n");
}

fn leapt(rt: &impl Print, leap: Option<Leap>) {
    match leap {
        None => line::word(rt, b" leap none"),
        Some(Leap::Future(run)) => {
            line::word(rt, b" leap future");
            line::small(rt, run);
        }
        Some(Leap::Past(run)) => {
            line::word(rt, b" leap past");
            line::small(rt, run);
        }
    }
}
