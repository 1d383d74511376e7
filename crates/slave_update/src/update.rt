// What a pair and its FUP make of the base (paper 01, "A slave's domain").
ghost use Rattle.std.specs.Prelude.{◌≡◌};
ghost use Rattle.slave_update.specs.Update.{new_base, update_of};

use crate::leap::leap_after;
use clock::{GlobalTime, TimeBase};
use domain::{Leap, Pair};
use frame::Fup;
use slave_answer::Taken;

// The base that a pair and its FUP give: the SYNC's seconds plus OVS, and the nanoseconds, at T2.
pub fn new_base(pair: Pair, fup: Fup) -> TimeBase
    ensures { result ≡ new_base pair fup }
{
    let seconds = (pair.seconds as u64) + (fup.ovs as u64);
    TimeBase::new(GlobalTime(seconds, fup.nanoseconds), pair.at)
}

// What an update says: the first one, or D; and the leap after it.
#[derive(Drop)]
pub struct Update {
    pub answer: Taken,
    pub leap: Option<Leap>,
}

// By the two thresholds and the count, from the leap and the base that are held.
pub fn update_by(
    future: u64,
    past: u64,
    count: u8,
    held: Option<Leap>,
    old: Option<TimeBase>,
    new: TimeBase,
) -> Update
    ensures { result ≡ update_of future past count held old new }
{
    match old {
        None => Update {
            answer: Taken::First,
            leap: None,
        },
        Some(base) => {
            let d = clock::minus_at(new.time, base, new.at);
            Update {
                answer: Taken::Updated(d),
                leap: leap_after(future, past, count, held, d),
            }
        }
    }
}
