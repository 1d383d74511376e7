// Settings by their fields.
use frame_check::CheckMode;
use settings::{DomainSettings, Role, Security, UserBytes};
use test_line::{byte, hex, number, small, word};

// The role, and the fields that have a range.
pub fn numbers(rt: &impl Print, s: DomainSettings) {
    named(rt, s.role);
    word(rt, b" J");
    small(rt, s.jump_width);
    word(rt, b" H");
    small(rt, s.hysteresis);
    word(rt, b" F");
    number(rt, s.follow_up_time);
    word(rt, b" L");
    number(rt, s.loss_time);
    word(rt, b" future");
    number(rt, s.future_threshold);
    word(rt, b" past");
    number(rt, s.past_threshold);
    word(rt, b" count");
    small(rt, s.clear_count);
    word(rt, b" P");
    number(rt, s.period);
    word(rt, b" C");
    number(rt, s.confirmation_time as u64);
}

// The other fields.
pub fn others(rt: &impl Print, s: DomainSettings) {
    moded(rt, s.mode);
    kind(rt, s.security);
    user_bytes(rt, s.user);
    word(rt, b" sync");
    list(rt, s.ids.sync);
    word(rt, b" fup");
    list(rt, s.ids.fup);
}

fn named(rt: &impl Print, role: Role) {
    match role {
        Role::Absent => word(rt, b" absent"),
        Role::Slave => word(rt, b" slave"),
        Role::Master => word(rt, b" master"),
    }
}

fn moded(rt: &impl Print, mode: CheckMode) {
    match mode {
        CheckMode::Validated => word(rt, b" validated"),
        CheckMode::NotValidated => word(rt, b" not-validated"),
        CheckMode::Ignored => word(rt, b" ignored"),
        CheckMode::Optional => word(rt, b" optional"),
    }
}

fn kind(rt: &impl Print, security: Security) {
    match security {
        Security::Plain => word(rt, b" plain"),
        Security::Secured => word(rt, b" secured"),
    }
}

fn user_bytes(rt: &impl Print, user: UserBytes) {
    word(rt, b" user");
    byte(rt, user.0);
    byte(rt, user.1);
    byte(rt, user.2);
}

fn list(rt: &impl Print, ids: [u8; 16]) {
    word(rt, b" ");
    hex(rt, &ids);
}
