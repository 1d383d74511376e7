// What the cases are given: settings of a master that sends plain frames.
use frame::DataIds;
use frame_check::CheckMode;
use settings::{DomainSettings, Role, UserBytes};

// A domain's settings, with three user bytes that differ.
pub fn domain(role: Role, period: u64, confirmation_time: u32) -> DomainSettings {
    let ids = *b"\x10\x11\x12\x13\x14\x15\x16\x17\x18\x19\x1a\x1b\x1c\x1d\x1e\x1f";
    DomainSettings {
        period,
        confirmation_time,
        ids: DataIds {
            sync: ids,
            fup: ids,
        },
        role,
        mode: CheckMode::Ignored,
        user: UserBytes(0xA0, 0xA1, 0xA2),
        ..DomainSettings::absent()
    }
}
