// A confirmation on a master's record (paper 01, "A master's domain"). The step answers, and gives the
// record back by value, as it was where it refuses. The frame is answered as values; whoever has the
// buffer writes it. The role is not looked at here.
#![tactic(auto)]

ghost use Rattle.std.specs.Prelude.{◌≡◌};
ghost use Rattle.master_confirm.specs.Confirm.{confirm_of};

use clock::VirtualLocalTime;
use domain::{Domain, DomainStep, Sending};
use frame::Fup;
use master_follow::follow_up;
use master_rules::protection;
use refusal::Outcome;

// The FUP of the open SYNC, which is then no longer open, or 11, 12. `room` says whether the buffer has the
// 8 bytes of a FUP.
pub fn confirm(
    domain: Domain,
    t: VirtualLocalTime,
    counter: u8,
    room: bool,
) -> DomainStep<Outcome<Fup>>
    ensures { result ≡ confirm_of domain t counter room }
{
    let settings = domain.settings;
    match follow_up(settings.confirmation_time, domain.sending, t, counter, room) {
        Err(refusal) => DomainStep {
            answer: Err(refusal),
            domain,
        },
        Ok(follow) => DomainStep {
            answer: Ok(Fup {
                domain: domain.number,
                counter,
                sgw: false,
                ovs: follow.ovs,
                nanoseconds: follow.nanoseconds,
                protection: protection(settings.security, settings.user.2),
            }),
            domain: Domain {
                sending: Sending::Confirmed(follow.sent_at),
                ..domain
            },
        },
    }
}
