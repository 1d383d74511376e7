// A frame for one record (paper 01, "A slave's domain" and "Refusal numbers", and paper 02, request 5).
#![tactic(auto)]

ghost use Rattle.std.specs.Prelude.{◌≡◌};
ghost use Rattle.call_frame.specs.FrameCall.{frame_kept, frame_call_of};

use admission::{admit_frame, kept_after};
use clock::VirtualLocalTime;
use domain::{Domain, DomainCall};
use refusal::{Numbered, Outcome};
use slave_answer::Taken;
use slave_frame::take_frame;

// 1, 2, 3, 4, 5; then 6, 15, or 7, 8, 9.
pub fn frame_call(
    domain: Domain,
    kept: VirtualLocalTime,
    t: VirtualLocalTime,
    bytes: &[u8],
) -> DomainCall<Outcome<Taken>>
    ensures { result ≡ frame_call_of domain kept t bytes.now }
{
    match admit_frame(kept, t, domain.number, domain.settings.role, bytes) {
        Err(refusal) => DomainCall {
            answer: Err(refusal),
            domain,
            kept,
        },
        Ok(values) => {
            let step = take_frame(domain, t, bytes, values);
            DomainCall {
                answer: step.answer,
                domain: step.domain,
                kept: frame_kept(step.answer.number(), kept, t),
            }
        }
    }
}

// The reading kept after a frame: its own after 0, and after 15.
fn frame_kept(number: u8, kept: VirtualLocalTime, t: VirtualLocalTime) -> VirtualLocalTime
    ensures { result ≡ frame_kept number kept t }
{
    if number == 15 {
        t
    } else {
        kept_after(number, kept, t)
    }
}
