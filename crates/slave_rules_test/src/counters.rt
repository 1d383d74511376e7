// The counter check. A line is J, L, the last counter, the reading, and the verdicts on the counters
// 0 to 15: f for free, g for good, n for not good.
use clock::VirtualLocalTime;
use domain::LastSync;
use slave_counter::{CounterVerdict, judge_counter};
use test_line as line;

// From the ends and the middle, within L; then widths and counters that no settings and no frame have.
pub fn widths(rt: &impl Print) {
    for (j, counter) in [
        (1, 0),
        (1, 7),
        (1, 14),
        (1, 15),
        (2, 0),
        (2, 13),
        (2, 14),
        (2, 15),
        (14, 0),
        (14, 15),
        (15, 0),
        (15, 8),
        (15, 15),
        (0, 0),
        (16, 0),
        (255, 0),
        (1, 16),
        (1, 200),
        (2, 255),
    ] {
        seen(rt, j, 1000, counter, 0, 1);
    }
}

// Exactly L after the last, and one more; at and before the reading of the last; far readings.
pub fn loss(rt: &impl Print) {
    for (j, l, at, t) in [
        (1, 1000, 500, 1499),
        (1, 1000, 500, 1500),
        (1, 1000, 500, 1501),
        (1, 1000, 500, 500),
        (1, 1000, 500, 0),
        (2, 1_000_000_000_000, 0, 1_000_000_000_000),
        (2, 1_000_000_000_000, 0, 1_000_000_000_001),
        (1, 2, 999_999_999_999_999_998, 1_000_000_000_000_000_000),
        (1, 2, 999_999_999_999_999_997, 1_000_000_000_000_000_000),
        (1, u64::MAX, 0, u64::MAX),
        (1, u64::MAX, u64::MAX, 0),
        (1, 0, 0, 1),
    ] {
        seen(rt, j, l, 3, at, t);
    }
    unknown(rt, 1, 1000, 0);
    unknown(rt, 15, 0, u64::MAX);
}

// ---- the lines

fn seen(rt: &impl Print, j: u8, l: u64, counter: u8, at: u64, t: u64) {
    head(rt, j, l);
    line::small(rt, counter);
    line::reading(rt, at);
    let last = LastSync::Seen {
        counter,
        row: 0,
        at: VirtualLocalTime(at),
    };
    verdicts(rt, j, l, last, t);
}

fn unknown(rt: &impl Print, j: u8, l: u64, t: u64) {
    head(rt, j, l);
    line::word(rt, b" unknown");
    verdicts(rt, j, l, LastSync::Unknown, t);
}

fn head(rt: &impl Print, j: u8, l: u64) {
    line::word(rt, b"counters J");
    line::small(rt, j);
    line::word(rt, b" L");
    line::number(rt, l);
    line::word(rt, b" last");
}

fn verdicts(rt: &impl Print, j: u8, l: u64, last: LastSync, t: u64) {
    line::word(rt, b" at");
    line::number(rt, t);
    line::word(rt, b": ");
    for new in 0..16 {
        verdict(rt, j, l, last, new, t);
    }
    line::word(rt, b"\n");
}

fn verdict(rt: &impl Print, j: u8, l: u64, last: LastSync, new: u8, t: u64) {
    match judge_counter(j, l, last, new, VirtualLocalTime(t)) {
        CounterVerdict::Free => line::word(rt, b"f"),
        CounterVerdict::Good => line::word(rt, b"g"),
        CounterVerdict::NotGood => line::word(rt, b"n"),
    }
}
