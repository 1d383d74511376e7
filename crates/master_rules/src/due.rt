// When a master's domain is due (paper 01, "A master's domain").
ghost use Rattle.std.specs.Prelude.{◌≡◌};
ghost use Rattle.master_rules.specs.Due.{is_master, has_waited, due_of};

use clock::{GlobalTime, TimeBase, VirtualLocalTime};
use domain::Sending;
use settings::Role;

// The time that the SYNC of a domain has that is due.
#[derive(Clone, Copy)]
pub struct Due {
    pub seconds: u32,
    pub nanoseconds: u32,
}

// Whether a domain is due, with the time that its SYNC then has.
pub fn due_at(
    role: Role,
    period: u64,
    base: Option<TimeBase>,
    sending: Sending,
    t: VirtualLocalTime,
) -> Option<Due>
    ensures { result ≡ due_of role period base sending t }
{
    let time = base?.time_at(t);
    if GlobalTime::SET_SECONDS_MAX < time.0 || !is_master(role) || !has_waited(period, sending, t) {
        return None;
    }
    Some(Due {
        seconds: time.0 as u32,
        nanoseconds: time.1,
    })
}

fn is_master(role: Role) -> bool
    ensures { result ≡ is_master role }
{
    matches!(role, Role::Master)
}

fn has_waited(period: u64, sending: Sending, t: VirtualLocalTime) -> bool
    ensures { result ≡ has_waited period sending t }
{
    match sending {
        Sending::Never => true,
        Sending::Open { at, .. } | Sending::Confirmed(at) => period <= t.since(at),
    }
}
