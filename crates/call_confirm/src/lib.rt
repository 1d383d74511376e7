// A confirmation for one record (paper 01, "A master's domain" and "Refusal numbers").
#![tactic(auto)]

ghost use Rattle.std.specs.Prelude.{◌≡◌};
ghost use Rattle.call_confirm.specs.ConfirmCall.{ConfirmedIn};

use admission::{Needed, admit, kept_after};
use clock::VirtualLocalTime;
use domain::{Domain, DomainCall};
use frame::{Frame, Fup};
use frame_write::write_frame;
use master_confirm::confirm;
use refusal::{Numbered, Outcome};

// 1, 4, 11, 12. The FUP is written at the start of `out`; all other bytes stay.
pub fn confirm_call(
    domain: Domain,
    kept: VirtualLocalTime,
    asked: u8,
    t: VirtualLocalTime,
    counter: u8,
    out: &mut [u8],
) -> DomainCall<Outcome<Fup>>
    ensures { ConfirmedIn domain kept asked t counter out.old result out.new }
{
    let settings = domain.settings;
    match admit(kept, t, domain.number, settings.role, asked, Needed::Master) {
        Err(refusal) => DomainCall {
            answer: Err(refusal),
            domain,
            kept,
        },
        Ok(()) => {
            let step = confirm(domain, t, counter, 8 <= out.len());
            let call = DomainCall {
                answer: step.answer,
                domain: step.domain,
                kept: kept_after(step.answer.number(), kept, t),
            };
            let Ok(fup) = step.answer else {
                return call;
            };
            let _ = write_frame(Frame::Fup(fup), settings.ids, out, 0);
            call
        }
    }
}
