// The exact sum of D (paper 02, request 13). What is ahead and what is behind are added up apart, in 128 bits each, and
// one is taken from the other when the sum is told: no partial sum can leave its bits, and none has a sign.
#![tactic(auto)]

ghost use Rattle.std.specs.Prelude.{◌≡◌};
ghost use Rattle.sheet_sum.specs.Wide.{more_of};
ghost use Rattle.sheet_sum.specs.Sum.{no_sum, sum_with, sum_of, plus_of, minus_of, told_of};

use clock::magnitude;

// All D that are not below 0, and how far below 0 the others are.
#[derive(Clone, Copy)]
pub struct Sum {
    pub ahead: u128,
    pub behind: u128,
}

// How far a sum is from 0, and on which side.
#[derive(Clone, Copy)]
pub enum Told {
    Plus(u64),
    Minus(u64),
}

impl Sum {
    // Of no D.
    pub fn new() -> Sum
        ensures { result ≡ no_sum }
    {
        Sum {
            ahead: 0,
            behind: 0,
        }
    }

    // With one D more.
    pub fn with(self, d: i64) -> Sum
        ensures { result ≡ sum_with self d }
    {
        if d < 0 {
            Sum {
                behind: plus(self.behind, magnitude(d)),
                ..self
            }
        } else {
            Sum {
                ahead: plus(self.ahead, magnitude(d)),
                ..self
            }
        }
    }

    // The sum itself, if it is within signed 64 bits.
    pub fn told(self) -> Option<Told>
        ensures { result ≡ told_of (sum_of self) }
    {
        let ahead = self.ahead.saturating_sub(self.behind);
        let behind = self.behind.saturating_sub(self.ahead);
        if behind == 0 {
            plus_told(ahead)
        } else {
            minus_told(behind)
        }
    }
}

fn plus_told(m: u128) -> Option<Told>
    ensures { result ≡ plus_of m }
{
    if m <= 0x7FFF_FFFF_FFFF_FFFF {
        Some(Told::Plus(m as u64))
    } else {
        None
    }
}

fn minus_told(m: u128) -> Option<Told>
    ensures { result ≡ minus_of m }
{
    if m <= 0x8000_0000_0000_0000 {
        Some(Told::Minus(m as u64))
    } else {
        None
    }
}

// So much more: held at the last number of 128 bits.
pub fn plus(wide: u128, more: u64) -> u128
    ensures { result ≡ more_of wide more }
{
    wide.saturating_add(u128::from(more))
}
