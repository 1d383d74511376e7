// What the cases are given: settings of a slave.
use frame::DataIds;
use frame_check::CheckMode;
use settings::{DomainSettings, Role};

// A slave's settings. No byte of the DataIDs stands twice, so a wrong list or place shows.
pub fn slave(
    jump_width: u8,
    hysteresis: u8,
    follow_up_time: u64,
    loss_time: u64,
    future_threshold: u64,
    past_threshold: u64,
) -> DomainSettings {
    let sync = *b"\x10\x11\x12\x13\x14\x15\x16\x17\x18\x19\x1a\x1b\x1c\x1d\x1e\x1f";
    let fup = *b"\xa0\xa1\xa2\xa3\xa4\xa5\xa6\xa7\xa8\xa9\xaa\xab\xac\xad\xae\xaf";
    DomainSettings {
        follow_up_time,
        loss_time,
        future_threshold,
        past_threshold,
        ids: DataIds { sync, fup },
        role: Role::Slave,
        mode: CheckMode::Ignored,
        jump_width,
        hysteresis,
        clear_count: 1,
        ..DomainSettings::absent()
    }
}
