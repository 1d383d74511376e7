// The least and the greatest D (paper 02, request 13).
ghost use Rattle.std.specs.Prelude.{◌≡◌};
ghost use Rattle.sheet_tally.specs.Spread.{spread_with};

#[derive(Clone, Copy)]
pub struct Spread {
    pub least: i64,
    pub greatest: i64,
}

impl Spread {
    // With one D more: `None` is that of no D.
    pub fn with(spread: Option<Spread>, d: i64) -> Spread
        ensures { result ≡ spread_with spread d }
    {
        match spread {
            None => Spread {
                least: d,
                greatest: d,
            },
            Some(spread) => Spread {
                least: spread.least.min(d),
                greatest: d.max(spread.greatest),
            },
        }
    }
}
