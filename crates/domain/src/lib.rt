// One domain's record (paper 01, "A slave's domain" and "A master's domain"): its number, what it
// holds of its settings, its base, and what its role adds. What is not there is a case of an enum and
// no flag beside a value, so no two fresh records differ in what nobody sees. A constructor stands
// here, and the one rule that both roles share; `slave_sync`, `master_set` and the like have the others.
#![tactic(auto)]

ghost use Rattle.std.specs.Prelude.{◌≡◌};
ghost use Rattle.domain.specs.Fresh.{fresh_of};
ghost use Rattle.domain.specs.Updates.{next_update};

use clock::{TimeBase, VirtualLocalTime};
use settings::{DomainSettings, UserBytes};

// A slave's SYNC that waits for its FUP. Its reading is T2.
#[derive(Clone, Copy)]
pub struct Pair {
    pub at: VirtualLocalTime,
    pub seconds: u32,
    pub counter: u8,
    pub user0: u8,
    pub user1: u8,
}

// The SYNC that a slave accepted last, and the row: the SYNCs with a good counter since the first one, up to H. As an
// Option of a struct it would take 8 bytes more of each record, which has 200 (`record_size`).
#[derive(Clone, Copy)]
pub enum LastSync {
    Unknown,
    Seen {
        counter: u8,
        row: u8,
        at: VirtualLocalTime,
    },
}

// The SYNC that a master sent last: none yet; open, with its whole time; or no longer open, since its
// FUP was given.
#[derive(Clone, Copy)]
pub enum Sending {
    Never,
    Open {
        counter: u8,
        seconds: u32,
        nanoseconds: u32,
        at: VirtualLocalTime,
    },
    Confirmed(VirtualLocalTime),
}

// A slave's leap bit, one of two. With it stands its run: the updates within both thresholds since the leap.
#[derive(Clone, Copy)]
pub enum Leap {
    Future(u8),
    Past(u8),
}

#[derive(Clone, Copy)]
pub struct Domain {
    pub settings: DomainSettings,
    // None where it was never set.
    pub base: Option<TimeBase>,
    // "It is either waiting for a SYNC, or has an open pair."
    pub pairing: Option<Pair>,
    pub last: LastSync,
    pub sending: Sending,
    pub number: u8,
    // What a slave stored at its last FUP.
    pub user: UserBytes,
    pub sgw: bool,
    pub leap: Option<Leap>,
    // The update counter of either role.
    pub updates: u8,
    // The counter that a master sends next.
    pub next_counter: u8,
}

impl Domain {
    // The fresh record of a domain: what is read of its settings, and nothing else.
    pub fn new(number: u8, settings: DomainSettings) -> Domain
        ensures { result ≡ fresh_of number settings }
    {
        Domain {
            settings: settings.held(),
            base: None,
            pairing: None,
            last: LastSync::Unknown,
            sending: Sending::Never,
            number,
            user: UserBytes(0, 0, 0),
            sgw: false,
            leap: None,
            updates: 0,
            next_counter: 0,
        }
    }
}

// What a step on a record answers, and the record after it.
#[derive(Drop)]
pub struct DomainStep<A> {
    pub answer: A,
    pub domain: Domain,
}

// What a call on a record answers, the record after it, and the reading that is kept from then on.
#[derive(Drop)]
pub struct DomainCall<A> {
    pub answer: A,
    pub domain: Domain,
    pub kept: VirtualLocalTime,
}

// The update counter after one more update: from 255 to 0.
pub fn next_update(updates: u8) -> u8
    ensures { result ≡ next_update updates }
{
    updates.wrapping_add(1)
}
