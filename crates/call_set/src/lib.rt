// A set for one record (paper 01, "A master's domain" and "Refusal numbers").
#![tactic(auto)]

ghost use Rattle.std.specs.Prelude.{◌≡◌};
ghost use Rattle.call_set.specs.SetCall.{set_call_of};

use admission::{Needed, admit, kept_after};
use clock::VirtualLocalTime;
use domain::{Domain, DomainCall};
use master_set::set_time;
use refusal::{Numbered, Outcome};

// 1, 4, 9.
pub fn set_call(
    domain: Domain,
    kept: VirtualLocalTime,
    asked: u8,
    t: VirtualLocalTime,
    seconds: u32,
    nanoseconds: u32,
) -> DomainCall<Outcome<()>>
    ensures { result ≡ set_call_of domain kept asked t seconds nanoseconds }
{
    match admit(
        kept,
        t,
        domain.number,
        domain.settings.role,
        asked,
        Needed::Master,
    ) {
        Err(refusal) => DomainCall {
            answer: Err(refusal),
            domain,
            kept,
        },
        Ok(()) => {
            let step = set_time(domain, t, seconds, nanoseconds);
            DomainCall {
                answer: step.answer,
                domain: step.domain,
                kept: kept_after(step.answer.number(), kept, t),
            }
        }
    }
}
