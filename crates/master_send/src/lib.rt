// A SYNC from a master's record (paper 01, "A master's domain"): when it is due, and sending it. The
// step answers, and gives the record back by value, as it was where it is not due. The frame is answered
// as values; whoever has the buffer writes it. Of the steps on a record this one alone asks for the role, since a main
// cycle passes over all records.
#![tactic(auto)]

ghost use Rattle.std.specs.Prelude.{◌≡◌};
ghost use Rattle.master_send.specs.Send.{due_in, is_due, send_of};

use clock::VirtualLocalTime;
use domain::{Domain, DomainStep, Sending};
use frame::{COUNTERS, Sync};
use master_rules::{Due, due_at, protection};

// Whether the domain is due at t.
pub fn is_due(domain: Domain, t: VirtualLocalTime) -> bool
    ensures { result ≡ is_due domain t }
{
    due_in(domain, t).is_some()
}

fn due_in(domain: Domain, t: VirtualLocalTime) -> Option<Due>
    ensures { result ≡ due_in domain t }
{
    let settings = domain.settings;
    due_at(
        settings.role,
        settings.period,
        domain.base,
        domain.sending,
        t,
    )
}

// A SYNC if the domain is due at t. The record then holds it as open.
pub fn send(domain: Domain, t: VirtualLocalTime) -> DomainStep<Option<Sync>>
    ensures { result ≡ send_of domain t }
{
    let Some(due) = due_in(domain, t) else {
        return DomainStep {
            answer: None,
            domain,
        };
    };
    let counter = domain.next_counter % COUNTERS;
    let settings = domain.settings;
    let sent = settings.user;
    DomainStep {
        answer: Some(Sync {
            domain: domain.number,
            counter,
            user0: sent.0,
            seconds: due.seconds,
            protection: protection(settings.security, sent.1),
        }),
        domain: Domain {
            sending: Sending::Open {
                counter,
                seconds: due.seconds,
                nanoseconds: due.nanoseconds,
                at: t,
            },
            next_counter: (counter + 1) % COUNTERS,
            ..domain
        },
    }
}
