// The check of the row. A line is H, the row up to the last SYNC, and for each verdict on the counter the answer
// (not-good, joins or complete) with the row to hold.
use slave_counter::{CounterVerdict, RowCheck, check_row};
use test_line as line;

// H 0 to 2, the greatest, and one that no settings have; rows up to H, and beyond it, which no record holds.
pub fn rows(rt: &impl Print) {
    for (h, row) in [
        (0, 0),
        (0, 1),
        (0, 255),
        (1, 0),
        (1, 1),
        (1, 2),
        (1, 255),
        (2, 0),
        (2, 1),
        (2, 2),
        (2, 3),
        (2, 255),
        (15, 0),
        (15, 1),
        (15, 13),
        (15, 14),
        (15, 15),
        (15, 255),
        (255, 0),
        (255, 1),
        (255, 253),
        (255, 254),
        (255, 255),
    ] {
        checks(rt, h, row);
    }
}

// ---- the lines

fn checks(rt: &impl Print, h: u8, row: u8) {
    line::word(rt, b"check H");
    line::small(rt, h);
    line::word(rt, b" row");
    line::small(rt, row);
    line::word(rt, b": free");
    checked(rt, check_row(h, row, CounterVerdict::Free));
    line::word(rt, b", good");
    checked(rt, check_row(h, row, CounterVerdict::Good));
    line::word(rt, b", not-good");
    checked(rt, check_row(h, row, CounterVerdict::NotGood));
    line::word(rt, b"\n");
}

fn checked(rt: &impl Print, check: RowCheck) {
    match check {
        RowCheck::NotGood(row) => {
            line::word(rt, b" not-good");
            line::small(rt, row);
        }
        RowCheck::Joins(row) => {
            line::word(rt, b" joins");
            line::small(rt, row);
        }
        RowCheck::Complete(row) => {
            line::word(rt, b" complete");
            line::small(rt, row);
        }
    }
}
