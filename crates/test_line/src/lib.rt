// The parts of a line of the test programs: words, numbers, bytes, times. Each is printed, of which no contract can
// speak: what is proved is that each is safe and ends. A part that cannot be written is left out.
#![tactic(auto)]

use clock::TimeBase;
use text::Out;

pub fn word(rt: &impl Print, text: &[u8]) {
    let _ = rt.write_all(text);
}

pub fn yes_no(rt: &impl Print, yes: bool) {
    if yes {
        word(rt, b" yes");
    } else {
        word(rt, b" no");
    }
}

// ---- numbers, in decimal

pub fn number(rt: &impl Print, n: u64) {
    word(rt, b" ");
    decimal(rt, n);
}

pub fn small(rt: &impl Print, n: u8) {
    number(rt, n as u64);
}

pub fn signed(rt: &impl Print, d: i64) {
    if d < 0 {
        word(rt, b" -");
    } else {
        word(rt, b" ");
    }
    decimal(rt, clock::magnitude(d));
}

fn decimal(rt: &impl Print, n: u64) {
    let _ = rt.print(n);
}

// ---- bytes, in hexadecimal

pub fn byte(rt: &impl Print, value: u8) {
    word(rt, b" ");
    digits(rt, value);
}

// Two digits for each, with nothing between them.
pub fn hex(rt: &impl Print, bytes: &[u8]) {
    for value in bytes {
        digits(rt, *value);
    }
}

fn digits(rt: &impl Print, value: u8) {
    let _ = print!(rt; "{value:02x}");
}

// ---- times

pub fn reading(rt: &impl Print, t: u64) {
    word(rt, b"@");
    decimal(rt, t);
}

// Seconds, a point, and nanoseconds with nine digits, or ten where they are out of range.
pub fn time(rt: &impl Print, seconds: u64, nanoseconds: u32) {
    number(rt, seconds);
    word(rt, b".");
    if nanoseconds < 1_000_000_000 {
        nine_digits(rt, nanoseconds);
    } else {
        decimal(rt, nanoseconds as u64);
    }
}

fn nine_digits(rt: &impl Print, n: u32) {
    let mut digits = [0u8; 9];
    let mut out = Out {
        bytes: &mut digits,
        at: 0,
    };
    out.put_nine_digits(n);
    word(rt, &digits);
}

// The base of a record.
pub fn base(rt: &impl Print, held: Option<TimeBase>) {
    match held {
        None => word(rt, b"; base unset"),
        Some(set) => {
            let at = set.at;
            let now = set.time;
            word(rt, b"; base");
            time(rt, now.0, now.1);
            reading(rt, at.0);
        }
    }
}
