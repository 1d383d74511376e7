// The FUP of an open SYNC (paper 01, "A master's domain").
#![tactic(auto)]

ghost use Rattle.std.specs.Prelude.{◌≡◌};
ghost use Rattle.master_follow.specs.Follow.{follow_of};

use clock::{VirtualLocalTime, carried_over};
use domain::Sending;
use refusal::{Outcome, Refusal};

// The time of a FUP, and when its SYNC was sent. OVS is at most 3 on every node that calls give (`ovs_most`); on another
// record it may be up to 8, and is written modulo 4.
#[derive(Clone, Copy)]
pub struct Follow {
    pub ovs: u8,
    pub nanoseconds: u32,
    pub sent_at: VirtualLocalTime,
}

// 11, 12, or the time of the FUP, which comes from the open SYNC alone, never from the base. `room` says
// whether the buffer has the 8 bytes of a FUP.
pub fn follow_up(
    confirmation_time: u32,
    sending: Sending,
    t: VirtualLocalTime,
    counter: u8,
    room: bool,
) -> Outcome<Follow>
    ensures { result ≡ follow_of confirmation_time sending t counter room }
{
    let Sending::Open {
        counter: sent,
        seconds: _,
        nanoseconds,
        at,
    } = sending
    else {
        return Err(Refusal::NoOpenSync);
    };
    if sent != counter {
        return Err(Refusal::NoOpenSync);
    }
    // the age is tested whole: one that is at most C fits 32 bits
    let span = t.since(at);
    if (confirmation_time as u64) < span {
        return Err(Refusal::NoOpenSync);
    }
    if !room {
        return Err(Refusal::NoRoom);
    }
    let over = carried_over(nanoseconds, span as u32);
    Ok(Follow {
        ovs: over.seconds,
        nanoseconds: over.nanoseconds,
        sent_at: at,
    })
}
