// What is held. A line is the settings by all their fields, first as given, then as held. No number
// stands twice in those given, and none is 0 but the first of a mode or of a kind.
use crate::fields;
use frame::DataIds;
use frame_check::CheckMode;
use settings::{DomainSettings, Role, Security, UserBytes};
use test_line as line;

pub fn roles(rt: &impl Print) {
    for mode in [
        CheckMode::Validated,
        CheckMode::NotValidated,
        CheckMode::Ignored,
        CheckMode::Optional,
    ] {
        held(rt, Role::Slave, mode, Security::Secured);
    }
    for security in [Security::Plain, Security::Secured] {
        held(rt, Role::Master, CheckMode::Optional, security);
    }
    held(rt, Role::Absent, CheckMode::Optional, Security::Secured);
    line::word(rt, b"absent");
    whole(rt, DomainSettings::absent());
}

// No byte stands twice, so a wrong list or place shows.
fn given(role: Role, mode: CheckMode, security: Security) -> DomainSettings {
    let sync = *b"\x10\x11\x12\x13\x14\x15\x16\x17\x18\x19\x1a\x1b\x1c\x1d\x1e\x1f";
    let fup = *b"\xa0\xa1\xa2\xa3\xa4\xa5\xa6\xa7\xa8\xa9\xaa\xab\xac\xad\xae\xaf";
    DomainSettings {
        follow_up_time: 1001,
        loss_time: 2002,
        future_threshold: 3003,
        past_threshold: 4004,
        period: 5_005_005,
        confirmation_time: 606_060,
        ids: DataIds { sync, fup },
        role,
        mode,
        jump_width: 7,
        hysteresis: 9,
        clear_count: 8,
        security,
        user: UserBytes(0x21, 0x22, 0x23),
    }
}

// ---- the lines

fn held(rt: &impl Print, role: Role, mode: CheckMode, security: Security) {
    let s = given(role, mode, security);
    line::word(rt, b"given");
    whole(rt, s);
    line::word(rt, b"held");
    whole(rt, s.held());
}

fn whole(rt: &impl Print, s: DomainSettings) {
    fields::numbers(rt, s);
    fields::others(rt, s);
    line::word(rt, b"\n");
}
