// A time that is set on a master's record (paper 01, "A master's domain"). The step answers, and gives
// the record back by value, as it was where it refuses. The role is not looked at here.
#![tactic(auto)]

ghost use Rattle.std.specs.Prelude.{◌≡◌};
ghost use Rattle.master_set.specs.Set.{set_of};

use clock::{GlobalTime, TimeBase, VirtualLocalTime};
use domain::{Domain, DomainStep, next_update};
use refusal::{Outcome, Refusal};

// The base holds the given time at t, or 9. An open SYNC is not touched.
pub fn set_time(
    domain: Domain,
    t: VirtualLocalTime,
    seconds: u32,
    nanoseconds: u32,
) -> DomainStep<Outcome<()>>
    ensures { result ≡ set_of domain t seconds nanoseconds }
{
    if GlobalTime::NANOSECONDS_MAX < nanoseconds {
        return DomainStep {
            answer: Err(Refusal::Nanoseconds),
            domain,
        };
    }
    DomainStep {
        answer: Ok(()),
        domain: Domain {
            base: Some(TimeBase::new(GlobalTime(seconds as u64, nanoseconds), t)),
            updates: next_update(domain.updates),
            ..domain
        },
    }
}
