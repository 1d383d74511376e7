// The limits of the ranges.
use settings::{DomainSettings, NodeSettings};
use test_line as line;

// The limits as the library names them.
pub fn limits(rt: &impl Print) {
    line::word(rt, b"limits");
    for limit in [
        NodeSettings::SYNCS_PER_CYCLE_MIN as u64,
        NodeSettings::SYNCS_PER_CYCLE_MAX as u64,
        DomainSettings::JUMP_WIDTH_MIN as u64,
        DomainSettings::JUMP_WIDTH_MAX as u64,
        DomainSettings::HYSTERESIS_MAX as u64,
        DomainSettings::FOLLOW_UP_TIME_MIN,
        DomainSettings::FOLLOW_UP_TIME_MAX,
        DomainSettings::LOSS_TIME_MAX,
        DomainSettings::THRESHOLD_MAX,
        DomainSettings::CLEAR_COUNT_MIN as u64,
        DomainSettings::PERIOD_MIN,
        DomainSettings::PERIOD_MAX,
        DomainSettings::CONFIRMATION_TIME_MIN,
        DomainSettings::CONFIRMATION_TIME_MAX,
    ] {
        line::number(rt, limit);
    }
    line::word(rt, b"\n");
}
