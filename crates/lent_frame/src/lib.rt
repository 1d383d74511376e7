// A frame on one record that the product lends (paper 02, request 11): the record is updated where it stands, and the
// kept reading, one for all records of a node, is passed beside it and given back. It is `frame_call` on the lent
// record: 1, 2, 3, 4, 5; then 6, 15, or 7, 8, 9; and 4 also for a frame of another domain than the record's.
#![tactic(auto)]

ghost use Rattle.std.specs.Prelude.{◌≡◌};
ghost use Rattle.call_frame.specs.FrameCall.{frame_call_of};
ghost use Rattle.lent_frame.specs.Lent.{TakenOn};

use call_frame::frame_call;
use clock::VirtualLocalTime;
use domain::{Domain, DomainCall};
use refusal::Outcome;
use slave_answer::Taken;

#[derive(Drop)]
pub struct LentFrame {
    pub answer: Outcome<Taken>,
    // What is kept from now on, for all records.
    pub kept: VirtualLocalTime,
}

// Where the call is refused the record is as it was, but under 6 and 15, as a frame call has it.
pub fn frame_on(
    domain: &mut Domain,
    kept: VirtualLocalTime,
    t: VirtualLocalTime,
    bytes: &[u8],
) -> LentFrame
    ensures { TakenOn domain.old kept t bytes.now result domain.new }
{
    let call = frame_call(*domain, kept, t, bytes);
    *domain = call.domain;
    LentFrame {
        answer: call.answer,
        kept: call.kept,
    }
}

// `frame_on` for who has the record by value: it is lent for the call, and comes back.
pub fn frame_lent(
    domain: Domain,
    kept: VirtualLocalTime,
    t: VirtualLocalTime,
    bytes: &[u8],
) -> DomainCall<Outcome<Taken>>
    ensures { result ≡ frame_call_of domain kept t bytes.now }
{
    let mut record = domain;
    let lent = frame_on(&mut record, kept, t, bytes);
    DomainCall {
        answer: lent.answer,
        domain: record,
        kept: lent.kept,
    }
}
