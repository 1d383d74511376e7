// What a frame is tested for before it steps a record (paper 01, "Refusal numbers", 1 to 4): the reading, its bytes,
// and whether the record is that of its domain, a slave's.
ghost use Rattle.std.specs.Prelude.{◌≡◌};
ghost use Rattle.admission.specs.FrameAdmission.{values_for, frame_admitted};

use crate::{Needed, is_good_reading, is_in};
use clock::VirtualLocalTime;
use frame::Frame;
use frame_read::read_frame;
use refusal::{Outcome, Refusal};
use settings::Role;

// The values of a frame at t, to the record of number `own`: 1, 2, 3, 4.
pub fn admit_frame(
    kept: VirtualLocalTime,
    t: VirtualLocalTime,
    own: u8,
    role: Role,
    bytes: &[u8],
) -> Outcome<Frame>
    ensures { result ≡ frame_admitted kept t own role bytes.now }
{
    if !is_good_reading(kept, t) {
        return Err(Refusal::Reading);
    }
    values_for(own, role, read_frame(bytes)?)
}

fn values_for(own: u8, role: Role, values: Frame) -> Outcome<Frame>
    ensures { result ≡ values_for own role values }
{
    if values.domain() != own || !is_in(role, Needed::Slave) {
        return Err(Refusal::Domain);
    }
    Ok(values)
}
