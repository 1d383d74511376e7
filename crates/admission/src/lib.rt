// What a call tests before it steps a record (paper 01, "Refusal numbers", 1 and 4): the reading, and whether
// the record is that of the domain asked for, in the role needed; and the reading that is kept after it. No record
// is taken here: the tests go by a record's number and role. A frame's tests, 1 to 4, are in `frames`.
#![tactic(auto)]

pub mod frames;

ghost use Rattle.std.specs.Prelude.{◌≡◌};
ghost use Rattle.admission.specs.Reading.{is_good_reading};
ghost use Rattle.admission.specs.Kept.{kept_after};
ghost use Rattle.admission.specs.Admission.{is_in, admitted_of};

use clock::VirtualLocalTime;
pub use frames::admit_frame;
use refusal::{Outcome, Refusal};
use settings::Role;

// The role that a call needs.
#[derive(Drop)]
pub enum Needed {
    Slave,
    Master,
    Either,
}

// Whether a reading is at most the greatest one, and not before the kept one.
pub fn is_good_reading(kept: VirtualLocalTime, t: VirtualLocalTime) -> bool
    ensures { result ≡ is_good_reading kept t }
{
    t.is_reading() && kept.0 <= t.0
}

// The reading kept after a call at t that answers a number: t where it is a success.
pub fn kept_after(number: u8, kept: VirtualLocalTime, t: VirtualLocalTime) -> VirtualLocalTime
    ensures { result ≡ kept_after number kept t }
{
    if number == 0 { t } else { kept }
}

// A call for domain `asked` at t, to the record of number `own`: 1, 4.
pub fn admit(
    kept: VirtualLocalTime,
    t: VirtualLocalTime,
    own: u8,
    role: Role,
    asked: u8,
    needed: Needed,
) -> Outcome<()>
    ensures { result ≡ admitted_of kept t own role asked needed }
{
    if !is_good_reading(kept, t) {
        return Err(Refusal::Reading);
    }
    if asked != own || !is_in(role, needed) {
        return Err(Refusal::Domain);
    }
    Ok(())
}

// Whether a role is one that is needed.
pub fn is_in(role: Role, needed: Needed) -> bool
    ensures { result ≡ is_in role needed }
{
    match role {
        Role::Absent => false,
        Role::Slave => matches!(needed, Needed::Slave | Needed::Either),
        Role::Master => matches!(needed, Needed::Master | Needed::Either),
    }
}
