// The refusal numbers (paper 01, "Refusal numbers", and paper 02): a named case for each, and its number.
// Calls answer what they found, or a case; the number is what a customer sees. 0 is success, and no case here.
#![tactic(auto)]

ghost use Rattle.std.specs.Prelude.{ℕ, ◌≡◌};
ghost use Rattle.refusal.specs.Numbers.{number_of, outcome_number};

#[derive(Clone, Copy)]
pub enum Refusal {
    // 1: reading above 10^18 or before the kept one
    Reading,
    // 2: frame length not 8
    Length,
    // 3: byte 0 none of the four types
    FrameType,
    // 4: domain above 15 or not in the role needed
    Domain,
    // 5: frame not good under the check mode
    Check,
    // 6: SYNC's counter not good
    SyncCounter,
    // 7: FUP with no open pair
    NoOpenPair,
    // 8: FUP's counter not the pair's
    FupCounter,
    // 9: nanoseconds above 999,999,999
    Nanoseconds,
    // 10: read of a base never set
    NeverSet,
    // 11: confirmation with no open SYNC of that counter, or older than C
    NoOpenSync,
    // 12: output buffer too short
    NoRoom,
    // 14: settings out of range
    Settings,
    // 15: SYNC good in counter but row not complete
    RowIncomplete,
}

impl Refusal {
    // The paper's number.
    pub fn number(self) -> u8
        ensures { result ≡ number_of self }
    {
        match self {
            Refusal::Reading => 1,
            Refusal::Length => 2,
            Refusal::FrameType => 3,
            Refusal::Domain => 4,
            Refusal::Check => 5,
            Refusal::SyncCounter => 6,
            Refusal::NoOpenPair => 7,
            Refusal::FupCounter => 8,
            Refusal::Nanoseconds => 9,
            Refusal::NeverSet => 10,
            Refusal::NoOpenSync => 11,
            Refusal::NoRoom => 12,
            Refusal::Settings => 14,
            Refusal::RowIncomplete => 15,
        }
    }
}

// What a call comes to: what it found, or the case by which it is refused.
pub type Outcome<T> = Result<T, Refusal>;

// What has a number of the paper.
pub trait Numbered {
    ghost numbered: { Self → ℕ };

    fn number(&self) -> u8
        ensures { result ≡ numbered self.now };
}

impl<T> Numbered for Outcome<T> {
    ghost numbered = { outcome_number };

    fn number(&self) -> u8 {
        match self {
            Ok(_) => 0,
            Err(refusal) => refusal.number(),
        }
    }
}
