// The main cycle's round (paper 01, "A master's domain"): sixteen turns over sixteen records, from the one
// after that served last. Each due domain sends until as many have sent as a cycle may; frames are
// written one after another, the n-th at byte 8 n, and bytes beyond them stay.
#![tactic(auto)]

pub mod turns;

ghost use Rattle.std.specs.Prelude.{◌≤◌, ◌*◌};
ghost use Rattle.settings.specs.Node.{places};
ghost use Rattle.round.specs.Round.{PutAt, RoundIn};

use crate::turns::PLACES;
use clock::VirtualLocalTime;
use domain::Domain;
use frame::{DataIds, Frame, Sync};
use frame_write::write_frame;
use settings::NodeSettings;
pub use turns::{next_after, turn};

// The records after a round, where the next one starts, and how many have sent.
#[derive(Drop)]
pub struct Round {
    pub domains: [Domain; NodeSettings::DOMAINS],
    pub next: u8,
    pub sent: usize,
}

pub fn go_round(
    domains: [Domain; NodeSettings::DOMAINS],
    first: u8,
    t: VirtualLocalTime,
    most: u8,
    out: &mut [u8],
) -> Round
    ensures { RoundIn domains first t most out.old result out.new }
{
    let mut records = domains;
    let mut at = (first % PLACES) as usize;
    let mut next = first;
    let mut sent = 0;
    for turns in 0..NodeSettings::DOMAINS {
        let record = records[at];
        let step = turn(record, t, sent < (most as usize));
        let answer = step.answer;
        records[at] = step.domain;
        sent = put(answer, record.settings.ids, out, sent);
        next = next_after(answer, at as u8, next);
        at = (at + 1) % NodeSettings::DOMAINS;
    }
    Round {
        domains: records,
        next,
        sent,
    }
}

// Writes what a turn sent behind the frames that are there, and counts it.
fn put(answer: Option<Sync>, ids: DataIds, out: &mut [u8], sent: usize) -> usize
    requires { sent ≤ places }
    ensures { PutAt answer ids sent out.old result out.new }
{
    match answer {
        Some(sync) => {
            let _ = write_frame(Frame::Sync(sync), ids, out, 8 * sent);
            sent + 1
        }
        None => sent,
    }
}
