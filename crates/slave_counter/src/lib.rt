// The counter check of a SYNC (paper 01, "A slave's domain", and paper 02, request 5): whether its counter is good,
// and whether the row of good ones is complete.
#![tactic(auto)]

ghost use Rattle.std.specs.Prelude.{◌≡◌};
ghost use Rattle.slave_counter.specs.Counter.{verdict_of};
ghost use Rattle.slave_counter.specs.Row.{row_of, with_row, reached, checked_of};

use clock::VirtualLocalTime;
use domain::LastSync;
use frame::COUNTERS;

// What is said of a SYNC's counter: any is good, since none is known or the last is too long ago; or it
// was judged.
#[derive(Drop)]
pub enum CounterVerdict {
    Free,
    Good,
    NotGood,
}

// What the check answers, with the row to hold: the counter is not good; or it is good, and the SYNC joins a row that
// is not complete yet, or completes it or finds it complete.
#[derive(Drop)]
pub enum RowCheck {
    NotGood(u8),
    Joins(u8),
    Complete(u8),
}

pub fn judge_counter(
    jump_width: u8,
    loss_time: u64,
    last: LastSync,
    new: u8,
    t: VirtualLocalTime,
) -> CounterVerdict
    ensures { result ≡ verdict_of jump_width loss_time last new t }
{
    let LastSync::Seen { counter, at, .. } = last else {
        return CounterVerdict::Free;
    };
    if loss_time < t.since(at) {
        return CounterVerdict::Free;
    }
    let step = (new % COUNTERS + COUNTERS - counter % COUNTERS) % COUNTERS;
    if (1..=jump_width).contains(&step) {
        CounterVerdict::Good
    } else {
        CounterVerdict::NotGood
    }
}

// The row up to the last SYNC.
pub fn row_of(last: LastSync) -> u8
    ensures { result ≡ row_of last }
{
    match last {
        LastSync::Unknown => 0,
        LastSync::Seen { row, .. } => row,
    }
}

// The last SYNC, with another row.
pub fn with_row(last: LastSync, row: u8) -> LastSync
    ensures { result ≡ with_row last row }
{
    match last {
        LastSync::Unknown => LastSync::Unknown,
        LastSync::Seen { counter, at, .. } => LastSync::Seen { counter, row, at },
    }
}

// A first SYNC begins the row, a good one makes it one more, and one that is not good sets it to 0 unless it was
// complete.
pub fn check_row(hysteresis: u8, row: u8, verdict: CounterVerdict) -> RowCheck
    ensures { result ≡ checked_of hysteresis row verdict }
{
    match verdict {
        CounterVerdict::Free => reached_by(hysteresis, 0),
        CounterVerdict::Good if hysteresis <= row => RowCheck::Complete(hysteresis),
        CounterVerdict::Good => reached_by(hysteresis, row + 1),
        CounterVerdict::NotGood if hysteresis <= row => RowCheck::NotGood(row),
        CounterVerdict::NotGood => RowCheck::NotGood(0),
    }
}

// A row of so many SYNCs after the first: complete with H.
fn reached_by(hysteresis: u8, row: u8) -> RowCheck
    ensures { result ≡ reached hysteresis row }
{
    if row < hysteresis {
        RowCheck::Joins(row)
    } else {
        RowCheck::Complete(hysteresis)
    }
}
