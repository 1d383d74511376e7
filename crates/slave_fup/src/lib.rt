// A FUP on a slave's record (paper 01, "A slave's domain"): it answers, and gives the record back by
// value, as it was where it refuses. Roles are not looked at here: the node asks the right record.
#![tactic(auto)]

ghost use Rattle.std.specs.Prelude.{◌≡◌};
ghost use Rattle.slave_fup.specs.Fup.{fup_of};

use clock::VirtualLocalTime;
use domain::{Domain, DomainStep, next_update};
use frame::Fup;
use refusal::Outcome;
use settings::UserBytes;
use slave_answer::Taken;
use slave_pair::{join, user_in};
use slave_update::{new_base, update_by};

// A FUP that was not refused before 7: it moves the base and closes its pair, or is refused by 7, 8, 9.
pub fn take_fup(domain: Domain, t: VirtualLocalTime, fup: Fup) -> DomainStep<Outcome<Taken>>
    ensures { result ≡ fup_of domain t fup }
{
    let settings = domain.settings;
    match join(settings.follow_up_time, domain.pairing, t, fup) {
        Err(refusal) => DomainStep {
            answer: Err(refusal),
            domain,
        },
        Ok(pair) => {
            let base = new_base(pair, fup);
            let update = update_by(
                settings.future_threshold,
                settings.past_threshold,
                settings.clear_count,
                domain.leap,
                domain.base,
                base,
            );
            DomainStep {
                answer: Ok(update.answer),
                domain: Domain {
                    base: Some(base),
                    pairing: None,
                    user: UserBytes(pair.user0, pair.user1, user_in(fup.protection)),
                    sgw: fup.sgw,
                    leap: update.leap,
                    updates: next_update(domain.updates),
                    ..domain
                },
            }
        }
    }
}
