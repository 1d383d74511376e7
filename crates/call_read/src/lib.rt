// A read of one record (paper 01, "Refusal numbers": "A read gives time, status, user bytes and update
// counter together and never changes the state").
#![tactic(auto)]

ghost use Rattle.std.specs.Prelude.{◌≡◌};
ghost use Rattle.call_read.specs.ReadCall.{status_for, user_for, read_call_of};

use admission::{Needed, admit};
use clock::{GlobalTime, VirtualLocalTime};
use domain::Domain;
use refusal::{Outcome, Refusal};
use settings::{Role, UserBytes};
use slave_status::{GLOBAL_TIME_BASE, status_at};

// What a read shows.
#[derive(Clone, Copy)]
pub struct Shown {
    pub time: GlobalTime,
    pub status: u8,
    pub user: UserBytes,
    pub updates: u8,
}

// 1, 4, 10.
pub fn read_call(
    domain: Domain,
    kept: VirtualLocalTime,
    asked: u8,
    t: VirtualLocalTime,
) -> Outcome<Shown>
    ensures { result ≡ read_call_of domain kept asked t }
{
    let settings = domain.settings;
    let role = settings.role;
    admit(kept, t, domain.number, role, asked, Needed::Either)?;
    let base = domain.base.ok_or(Refusal::NeverSet)?;
    Ok(Shown {
        time: base.time_at(t),
        status: status_for(role, status_at(domain, t)),
        user: user_for(role, settings.user, domain.user),
        updates: domain.updates,
    })
}

// A master whose base is set shows that alone.
fn status_for(role: Role, status: u8) -> u8
    ensures { result ≡ status_for role status }
{
    match role {
        Role::Absent | Role::Slave => status,
        Role::Master => GLOBAL_TIME_BASE,
    }
}

// A master shows the user bytes that it sends, any other those that it stored.
fn user_for(role: Role, sent: UserBytes, stored: UserBytes) -> UserBytes
    ensures { result ≡ user_for role sent stored }
{
    match role {
        Role::Absent | Role::Slave => stored,
        Role::Master => sent,
    }
}
