// What the sheet counts (paper 02, request 13): a tally of one domain's frames. The sheet of all domains, and whose a
// record is, have a file each.
#![tactic(auto)]

pub mod entry;
pub mod sheet;
pub mod spread;

ghost use Rattle.std.specs.Prelude.{◌≡◌};
ghost use Rattle.sheet_tally.specs.Tally.{
  no_tally,
  refused_column,
  column_of,
  one_more_in,
  with_difference,
  counted_of,
};

use crate::spread::Spread;
use refusal::Outcome;
use sheet_sum::Sum;
use slave_answer::Taken;
use text::pieces::next_item;

#[derive(Clone, Copy)]
pub struct Tally {
    // By column: SYNCs taken, FUPs taken, frames refused under 5, 6, 7, 8 and 9. Held at the last number of 64 bits.
    pub counts: [u64; Tally::COLUMNS],
    // Of all D.
    pub spread: Option<Spread>,
    pub sum: Sum,
}

impl Tally {
    pub const COLUMNS: usize = 7;

    // Of no frame.
    pub fn new() -> Tally
        ensures { result ≡ no_tally }
    {
        Tally {
            counts: [0; Tally::COLUMNS],
            spread: None,
            sum: Sum::new(),
        }
    }

    // With one answer more.
    pub fn counted(self, answer: Outcome<Taken>) -> Tally
        ensures { result ≡ counted_of self answer }
    {
        let column = column_of(answer);
        let tally = one_more_in(self, column);
        match answer {
            Ok(Taken::Updated(d)) => with_difference(tally, d),
            _ => tally,
        }
    }
}

// The column that counts an answer. 7 is none: a number below 5 or above 9.
pub fn column_of(answer: Outcome<Taken>) -> u8
    ensures { result ≡ column_of answer }
{
    match answer {
        Ok(Taken::Opened) => 0,
        Ok(Taken::First) => 1,
        Ok(Taken::Updated(_)) => 1,
        Err(refusal) => refused_column(refusal.number()),
    }
}

fn refused_column(number: u8) -> u8
    ensures { result ≡ refused_column number }
{
    if number < 5 {
        return 7;
    }
    if 9 < number {
        return 7;
    }
    number - 3
}

fn one_more_in(mut tally: Tally, column: u8) -> Tally
    ensures { result ≡ one_more_in tally column }
{
    let at = column as usize;
    if at < Tally::COLUMNS {
        tally.counts[at] = next_item(tally.counts[at]);
    }
    tally
}

fn with_difference(tally: Tally, d: i64) -> Tally
    ensures { result ≡ with_difference tally d }
{
    let counts = tally.counts;
    let spread = tally.spread;
    let sum = tally.sum;
    Tally {
        counts,
        spread: Some(Spread::with(spread, d)),
        sum: sum.with(d),
    }
}
