// The pair that a SYNC opens (paper 01, "A slave's domain").
ghost use Rattle.std.specs.Prelude.{◌≡◌};
ghost use Rattle.slave_pair.specs.Pair.{user_in, pair_of};

use clock::VirtualLocalTime;
use domain::Pair;
use frame::{Protection, Sync};

// The pair that a SYNC opens at t.
pub fn pair_of(t: VirtualLocalTime, sync: Sync) -> Pair
    ensures { result ≡ pair_of t sync }
{
    let protection = sync.protection;
    Pair {
        at: t,
        seconds: sync.seconds,
        counter: sync.counter,
        user0: sync.user0,
        user1: user_in(protection),
    }
}

// The user byte that byte 1 of a frame carries: 0 in a secured one, which carries none.
pub fn user_in(protection: Protection) -> u8
    ensures { result ≡ user_in protection }
{
    match protection {
        Protection::Plain(user) => user,
        Protection::Secured => 0,
    }
}
