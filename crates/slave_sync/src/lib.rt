// A SYNC on a slave's record (paper 01, "A slave's domain", and paper 02, request 5): it answers, and gives the record
// back by value. Roles are not looked at here: the node asks the right record.
#![tactic(auto)]

ghost use Rattle.std.specs.Prelude.{◌≡◌};
ghost use Rattle.slave_sync.specs.Sync.{sync_of};

use clock::VirtualLocalTime;
use domain::{Domain, DomainStep, LastSync};
use frame::Sync;
use refusal::{Outcome, Refusal};
use slave_answer::Taken;
use slave_counter::{RowCheck, check_row, judge_counter, row_of, with_row};
use slave_pair::pair_of;

// A SYNC that was not refused before 6. With a complete row it opens a pair and becomes the last; with a row that is
// not complete it becomes the last, and is refused by 15; where its counter is not good it is refused by 6, and the row
// begins anew unless it was complete.
pub fn take_sync(domain: Domain, t: VirtualLocalTime, sync: Sync) -> DomainStep<Outcome<Taken>>
    ensures { result ≡ sync_of domain t sync }
{
    let settings = domain.settings;
    let verdict = judge_counter(
        settings.jump_width,
        settings.loss_time,
        domain.last,
        sync.counter,
        t,
    );
    match check_row(settings.hysteresis, row_of(domain.last), verdict) {
        RowCheck::NotGood(row) => DomainStep {
            answer: Err(Refusal::SyncCounter),
            domain: Domain {
                last: with_row(domain.last, row),
                ..domain
            },
        },
        RowCheck::Joins(row) => DomainStep {
            answer: Err(Refusal::RowIncomplete),
            domain: Domain {
                last: LastSync::Seen {
                    counter: sync.counter,
                    row,
                    at: t,
                },
                ..domain
            },
        },
        RowCheck::Complete(row) => DomainStep {
            answer: Ok(Taken::Opened),
            domain: Domain {
                pairing: Some(pair_of(t, sync)),
                last: LastSync::Seen {
                    counter: sync.counter,
                    row,
                    at: t,
                },
                ..domain
            },
        },
    }
}
