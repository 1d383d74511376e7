// The ranges of one domain's settings (paper 01, "Settings of a node"): what is good for each role. A role's
// settings are read only for that role, an absent domain's not at all, so junk there is never refused.
ghost use Rattle.std.specs.Prelude.{◌≡◌};
ghost use Rattle.settings.specs.Ranges.{is_good, leaps_good, slave_good, master_good};

use crate::{DomainSettings, Role};

// Whether they are in range, as far as the role has them read.
pub fn is_good(settings: DomainSettings) -> bool
    ensures { result ≡ is_good settings }
{
    match settings.role {
        Role::Absent => true,
        Role::Slave => slave_good(settings),
        Role::Master => master_good(settings),
    }
}

fn slave_good(settings: DomainSettings) -> bool
    ensures { result ≡ slave_good settings }
{
    let jump_widths = DomainSettings::JUMP_WIDTH_MIN..=DomainSettings::JUMP_WIDTH_MAX;
    let follow_up_times = DomainSettings::FOLLOW_UP_TIME_MIN..=DomainSettings::FOLLOW_UP_TIME_MAX;
    jump_widths.contains(&settings.jump_width)
        && settings.hysteresis <= DomainSettings::HYSTERESIS_MAX
        && follow_up_times.contains(&settings.follow_up_time)
        && settings.follow_up_time < settings.loss_time
        && settings.loss_time <= DomainSettings::LOSS_TIME_MAX
        && leaps_good(settings)
}

// The leap thresholds, and the count that clears a leap bit.
fn leaps_good(settings: DomainSettings) -> bool
    ensures { result ≡ leaps_good settings }
{
    settings.future_threshold <= DomainSettings::THRESHOLD_MAX
        && settings.past_threshold <= DomainSettings::THRESHOLD_MAX
        && DomainSettings::CLEAR_COUNT_MIN <= settings.clear_count
}

fn master_good(settings: DomainSettings) -> bool
    ensures { result ≡ master_good settings }
{
    let confirmation_time = settings.confirmation_time as u64;
    let periods = DomainSettings::PERIOD_MIN..=DomainSettings::PERIOD_MAX;
    let confirmation_times =
        DomainSettings::CONFIRMATION_TIME_MIN..=DomainSettings::CONFIRMATION_TIME_MAX;
    periods.contains(&settings.period)
        && confirmation_times.contains(&confirmation_time)
        && confirmation_time < settings.period
}
