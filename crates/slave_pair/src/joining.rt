// A FUP and the pair it is to join (paper 01, "A slave's domain").
ghost use Rattle.std.specs.Prelude.{◌≡◌};
ghost use Rattle.slave_pair.specs.Join.{joined_of};

use clock::{GlobalTime, VirtualLocalTime};
use domain::Pair;
use frame::Fup;
use refusal::{Outcome, Refusal};

// The pair that a FUP finds.
pub fn join(
    follow_up_time: u64,
    pairing: Option<Pair>,
    t: VirtualLocalTime,
    fup: Fup,
) -> Outcome<Pair>
    ensures { result ≡ joined_of follow_up_time pairing t fup }
{
    let pair = pairing.ok_or(Refusal::NoOpenPair)?;
    if follow_up_time < t.since(pair.at) {
        return Err(Refusal::NoOpenPair);
    }
    if fup.counter != pair.counter {
        return Err(Refusal::FupCounter);
    }
    if GlobalTime::NANOSECONDS_MAX < fup.nanoseconds {
        return Err(Refusal::Nanoseconds);
    }
    Ok(pair)
}
