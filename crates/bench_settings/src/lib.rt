// The bench's settings (paper 01, "Bench program").
#![tactic(auto)]

ghost use Rattle.std.specs.Prelude.{◌≡◌};
ghost use Rattle.bench_settings.specs.Bench.{slave_with, bench_master, bench_with};

use frame_check::CheckMode;
use settings::{DomainSettings, NodeSettings, Role};

// S 1; domain 1 a slave, domain 2 a master, the others absent.
pub fn bench_settings() -> NodeSettings
    ensures { result ≡ bench_with 2 }
{
    let mut domains = [DomainSettings::absent(); NodeSettings::DOMAINS];
    domains[1] = slave();
    domains[2] = master();
    NodeSettings {
        syncs_per_cycle: 1,
        domains,
    }
}

// Not validated, J 2, H 0, F 100 ms, L 2 s, both thresholds 500 ms; a leap bit is off at the next update within them.
fn slave() -> DomainSettings
    ensures { result ≡ slave_with 2 }
{
    DomainSettings {
        follow_up_time: 100_000_000,
        loss_time: 2_000_000_000,
        future_threshold: 500_000_000,
        past_threshold: 500_000_000,
        role: Role::Slave,
        mode: CheckMode::NotValidated,
        jump_width: 2,
        clear_count: 1,
        ..DomainSettings::absent()
    }
}

// Plain, P 1 s, C 200 ms, user bytes 0.
fn master() -> DomainSettings
    ensures { result ≡ bench_master }
{
    DomainSettings {
        period: 1_000_000_000,
        confirmation_time: 200_000_000,
        role: Role::Master,
        ..DomainSettings::absent()
    }
}
