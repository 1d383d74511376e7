// A frame on a slave's record (paper 01, "A slave's domain"): the check mode, then SYNC or FUP. Roles
// are not looked at here: the node asks the right record.
#![tactic(auto)]

ghost use Rattle.std.specs.Prelude.{◌≡◌};
ghost use Rattle.slave_frame.specs.Step.{frame_of};

use clock::VirtualLocalTime;
use domain::{Domain, DomainStep};
use frame::Frame;
use refusal::{Outcome, Refusal};
use slave_answer::Taken;
use slave_fup::take_fup;
use slave_sync::take_sync;

// A frame of the domain, by its bytes and the values read from them. 5, then 6 and 15, or 7, 8 and 9.
pub fn take_frame(
    domain: Domain,
    t: VirtualLocalTime,
    bytes: &[u8],
    values: Frame,
) -> DomainStep<Outcome<Taken>>
    ensures { result ≡ frame_of domain t bytes.now values }
{
    let settings = domain.settings;
    if !settings.mode.takes(bytes, settings.ids) {
        return DomainStep {
            answer: Err(Refusal::Check),
            domain,
        };
    }
    match values {
        Frame::Sync(sync) => take_sync(domain, t, sync),
        Frame::Fup(fup) => take_fup(domain, t, fup),
    }
}
