// Whose an answered record is (paper 02, request 13): a domain's, where its frame is taken or refused under 5 to 9;
// else it is one of the others. Under these numbers the domain in byte 2 is a slave's, which 4 has let pass.
ghost use Rattle.std.specs.Prelude.{◌≡◌};
ghost use Rattle.sheet_tally.specs.Entry.{entry_by, entry_of};

use crate::{Tally, column_of};
use frame_read::named_domain;
use node_call::CallAnswer;
use refusal::Outcome;
use slave_answer::Taken;

#[derive(Drop)]
pub struct Entry {
    // The domain that the frame names.
    pub named: u8,
    pub answer: Outcome<Taken>,
}

// `None` is one of the others; `frame` is what a frame call was given.
pub fn entry_of(answer: CallAnswer, frame: &[u8]) -> Option<Entry>
    ensures { result ≡ entry_of answer frame.now }
{
    match answer {
        CallAnswer::Frame(told) => entry_by(told, frame),
        CallAnswer::Read(_) => None,
        CallAnswer::Set(_) => None,
        CallAnswer::Cycle(_) => None,
        CallAnswer::Confirm(_) => None,
    }
}

fn entry_by(answer: Outcome<Taken>, frame: &[u8]) -> Option<Entry>
    ensures { result ≡ entry_by answer frame.now }
{
    if (column_of(answer) as usize) < Tally::COLUMNS {
        Some(Entry {
            named: named_domain(frame),
            answer,
        })
    } else {
        None
    }
}
