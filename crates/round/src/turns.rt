// A record's turn in the main cycle's round (paper 01, "A master's domain"), and where the next round
// starts after it.
ghost use Rattle.std.specs.Prelude.{◌≡◌};
ghost use Rattle.round.specs.Turn.{turn_of, next_after};

use clock::VirtualLocalTime;
use domain::{Domain, DomainStep};
use frame::Sync;
use master_send::send;
use settings::NodeSettings;

// The number of domains, as a place is counted.
pub const PLACES: u8 = NodeSettings::DOMAINS as u8;

// A record's turn: it sends a SYNC if the domain is due and the cycle may still send.
pub fn turn(domain: Domain, t: VirtualLocalTime, may_send: bool) -> DomainStep<Option<Sync>>
    ensures { result ≡ turn_of may_send domain t }
{
    if may_send {
        send(domain, t)
    } else {
        DomainStep {
            answer: None,
            domain,
        }
    }
}

// Where the next round starts after a turn: behind a domain that sent.
pub fn next_after(answer: Option<Sync>, at: u8, next: u8) -> u8
    ensures { result ≡ next_after answer at next }
{
    match answer {
        Some(_) => (at % PLACES + 1) % PLACES,
        None => next,
    }
}
