// The status of a slave's record at a reading (paper 01, "A slave's domain"; bits as in document 000). Roles are
// not looked at here: the node asks the right record.
#![tactic(auto)]

ghost use Rattle.std.specs.Prelude.{◌≤◌, ◌≡◌};
ghost use Rattle.slave_status.specs.Status.{
  base_bits,
  gateway_bit,
  leap_bits,
  status_bits,
  status_of,
};

use clock::{TimeBase, VirtualLocalTime};
use domain::{Domain, Leap};

// Status bits.
pub const TIMEOUT: u8 = 0x01;

pub const SYNC_TO_GATEWAY: u8 = 0x04;

pub const GLOBAL_TIME_BASE: u8 = 0x08;

pub const TIMELEAP_FUTURE: u8 = 0x10;

pub const TIMELEAP_PAST: u8 = 0x20;

pub fn status_at(domain: Domain, t: VirtualLocalTime) -> u8
    ensures { result ≡ status_of domain t }
{
    status_of(
        domain.settings.loss_time,
        domain.base,
        domain.sgw,
        domain.leap,
        t,
    )
}

// The status, from the base, the SGW and the leap that are stored.
pub fn status_of(
    loss_time: u64,
    base: Option<TimeBase>,
    sgw: bool,
    leap: Option<Leap>,
    t: VirtualLocalTime,
) -> u8
    ensures { result ≡ status_bits loss_time base sgw leap t }
{
    base_bits(loss_time, base, t) + gateway_bit(sgw) + leap_bits(leap)
}

fn base_bits(loss_time: u64, base: Option<TimeBase>, t: VirtualLocalTime) -> u8
    ensures { (result ≡ base_bits loss_time base t) × (result ≤ 0x09) }
{
    match base {
        None => 0,
        Some(b) if loss_time < t.since(b.at) => GLOBAL_TIME_BASE + TIMEOUT,
        Some(_) => GLOBAL_TIME_BASE,
    }
}

fn gateway_bit(sgw: bool) -> u8
    ensures { (result ≡ gateway_bit sgw) × (result ≤ 0x04) }
{
    if sgw { SYNC_TO_GATEWAY } else { 0 }
}

fn leap_bits(leap: Option<Leap>) -> u8
    ensures { (result ≡ leap_bits leap) × (result ≤ 0x20) }
{
    match leap {
        None => 0,
        Some(Leap::Future(_)) => TIMELEAP_FUTURE,
        Some(Leap::Past(_)) => TIMELEAP_PAST,
    }
}
