// The sum of D at both ends of 64 and of 128 bits, and lines that no bench record makes: a sum that is over, the ends
// of D, counts at the end of 64 bits, a refusal that no column counts.
#![tactic(auto)]

use refusal::Refusal;
use sheet_line::put_line;
use sheet_sum::{Sum, Told, plus};
use sheet_tally::Tally;
use slave_answer::Taken;
use test_line::{number, signed, word};
use text::Out;
use text::pieces::write_out;

const HALF: u64 = 9_223_372_036_854_775_808;

fn main(rt: HostRuntime) {
    wides(&rt);
    sums(&rt);
    ends(&rt);
    lines(&rt);
}

// A number of 128 bits, and so much more.
fn wides(rt: &impl Print) {
    wide(rt, 0, 0, 0);
    wide(rt, 0, 7, 5);
    wide(rt, 0, u64::MAX, 1);
    wide(rt, 0, u64::MAX, u64::MAX);
    wide(rt, 3, 1, u64::MAX);
    wide(rt, u64::MAX - 1, u64::MAX, u64::MAX);
    wide(rt, u64::MAX, u64::MAX - 1, 1);
    wide(rt, u64::MAX, u64::MAX, 1);
    wide(rt, u64::MAX, 5, u64::MAX);
}

fn wide(rt: &impl Print, high: u64, low: u64, more: u64) {
    let after = plus(wide_of(high, low), more);
    word(rt, b"wide");
    number(rt, high);
    number(rt, low);
    number(rt, more);
    word(rt, b":");
    halves(rt, after);
    word(rt, b"\n");
}

fn wide_of(high: u64, low: u64) -> u128 {
    u128::from(high) << 64 | u128::from(low)
}

fn halves(rt: &impl Print, wide: u128) {
    number(rt, (wide >> 64) as u64);
    number(rt, (wide & 0xFFFF_FFFF_FFFF_FFFF) as u64);
}

// Three D.
fn sums(rt: &impl Print) {
    sum(rt, 0, 0, 0);
    sum(rt, 5, -5, 0);
    sum(rt, -5, 7, 0);
    sum(rt, i64::MAX, 0, 0);
    sum(rt, i64::MAX, 1, 0);
    sum(rt, i64::MAX, 1, -1);
    sum(rt, i64::MAX, i64::MAX, 2);
    sum(rt, i64::MAX, i64::MAX, i64::MIN);
    sum(rt, i64::MIN, 0, 0);
    sum(rt, i64::MIN, -1, 0);
    sum(rt, i64::MIN, -1, 1);
    sum(rt, i64::MIN, i64::MIN, i64::MAX);
    sum(rt, i64::MIN, i64::MIN, 0);
    sum(rt, i64::MIN, i64::MAX, 1);
}

fn sum(rt: &impl Print, a: i64, b: i64, c: i64) {
    let none = Sum::new();
    let one = none.with(a);
    let two = one.with(b);
    let three = two.with(c);
    word(rt, b"sum");
    signed(rt, a);
    signed(rt, b);
    signed(rt, c);
    say(rt, three.told());
}

// What is ahead, and what is behind, beyond 64 bits.
fn ends(rt: &impl Print) {
    end(rt, 0, HALF - 1, 0, 0);
    end(rt, 0, HALF, 0, 0);
    end(rt, 0, 0, 0, HALF);
    end(rt, 0, 0, 0, HALF + 1);
    end(rt, 1, 0, 0, HALF + 1);
    end(rt, 1, 0, 0, HALF);
    end(rt, 0, HALF, 1, 0);
    end(rt, 0, HALF - 1, 1, 0);
    end(rt, 5, 0, 5, 0);
    end(rt, 5, 1, 5, 0);
    end(rt, 6, 0, 5, u64::MAX);
    end(rt, 5, u64::MAX, 6, 0);
    end(rt, 6, 1, 5, 1);
    end(rt, 5, 1, 6, 1);
    end(rt, u64::MAX, u64::MAX, u64::MAX, u64::MAX);
    end(rt, u64::MAX, u64::MAX, 0, 0);
    end(rt, 0, 0, u64::MAX, u64::MAX);
}

fn end(rt: &impl Print, ahead_high: u64, ahead_low: u64, behind_high: u64, behind_low: u64) {
    let whole = Sum {
        ahead: wide_of(ahead_high, ahead_low),
        behind: wide_of(behind_high, behind_low),
    };
    word(rt, b"end");
    number(rt, ahead_high);
    number(rt, ahead_low);
    word(rt, b" less");
    number(rt, behind_high);
    number(rt, behind_low);
    say(rt, whole.told());
}

fn say(rt: &impl Print, told: Option<Told>) {
    word(rt, b":");
    match told {
        Some(Told::Plus(m)) => number(rt, m),
        Some(Told::Minus(m)) => {
            word(rt, b" minus");
            number(rt, m);
        }
        None => word(rt, b" over"),
    }
    word(rt, b"\n");
}

fn lines(rt: &impl Print) {
    let none = Tally::new();
    line(rt, none);
    let first = none.counted(Ok(Taken::Opened)).counted(Ok(Taken::First));
    line(rt, first);
    // no column counts 15
    line(rt, first.counted(Err(Refusal::RowIncomplete)));
    line(rt, first.counted(Err(Refusal::Check)));
    line(rt, first.counted(Err(Refusal::Nanoseconds)));
    let ahead = first.counted(Ok(Taken::Updated(i64::MAX)));
    line(rt, ahead);
    line(rt, ahead.counted(Ok(Taken::Updated(1))));
    line(rt, ahead.counted(Ok(Taken::Updated(i64::MIN))));
    let behind = first.counted(Ok(Taken::Updated(i64::MIN)));
    line(rt, behind);
    line(rt, behind.counted(Ok(Taken::Updated(-1))));
    let full = Tally {
        counts: [u64::MAX; Tally::COLUMNS],
        spread: None,
        sum: Sum::new(),
    };
    line(rt, full);
    line(rt, full.counted(Ok(Taken::Opened)));
}

fn line(rt: &impl Print, tally: Tally) {
    let mut text = [0u8; 256];
    let mut out = Out {
        bytes: &mut text,
        at: 0,
    };
    put_line(&mut out, 15, tally);
    let end = out.at;
    write_out(rt, out.bytes, end);
}
