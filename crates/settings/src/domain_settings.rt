// The settings of one domain (paper 01, "Settings of a node"), for both roles.
ghost use Rattle.std.specs.Prelude.{◌≡◌};
ghost use Rattle.settings.specs.Domain.{
  absent_held,
  no_settings,
  slave_held,
  master_held,
  held_of,
};

use frame::DataIds;
use frame_check::CheckMode;

// What a domain is in this node.
#[derive(Clone, Copy)]
pub enum Role {
    Absent,
    Slave,
    Master,
}

// How a master sends.
#[derive(Clone, Copy)]
pub enum Security {
    Plain,
    Secured,
}

// User bytes 0, 1 and 2.
#[derive(Clone, Copy)]
pub struct UserBytes(pub u8, pub u8, pub u8);

#[derive(Clone, Copy)]
pub struct DomainSettings {
    // A slave's: follow-up time F, loss time L, leap thresholds, in nanoseconds.
    pub follow_up_time: u64,
    pub loss_time: u64,
    pub future_threshold: u64,
    pub past_threshold: u64,
    // A master's: sending period P and confirmation time C, in nanoseconds.
    pub period: u64,
    pub confirmation_time: u32,
    // Each domain's DataIDs.
    pub ids: DataIds,
    pub role: Role,
    // A slave's: check mode, counter jump width J, hysteresis H (the SYNCs in a row that must follow the first), and
    // the updates in a row that clear a leap bit.
    pub mode: CheckMode,
    pub jump_width: u8,
    pub hysteresis: u8,
    pub clear_count: u8,
    // A master's: plain or secured, and the user bytes it sends.
    pub security: Security,
    pub user: UserBytes,
}

impl DomainSettings {
    pub const JUMP_WIDTH_MIN: u8 = 1;

    pub const JUMP_WIDTH_MAX: u8 = 15;

    // Its least is 0.
    pub const HYSTERESIS_MAX: u8 = 15;

    pub const FOLLOW_UP_TIME_MIN: u64 = 1;

    pub const FOLLOW_UP_TIME_MAX: u64 = 10_000_000_000;

    pub const LOSS_TIME_MAX: u64 = 1_000_000_000_000;

    pub const THRESHOLD_MAX: u64 = 1_000_000_000_000;

    // Its greatest is that of a byte.
    pub const CLEAR_COUNT_MIN: u8 = 1;

    pub const PERIOD_MIN: u64 = 1_000_000;

    pub const PERIOD_MAX: u64 = 1_000_000_000_000;

    pub const CONFIRMATION_TIME_MIN: u64 = 1;

    pub const CONFIRMATION_TIME_MAX: u64 = 3_000_000_000;

    // What is held of them: 0 for all that the role does not have read.
    pub fn held(self) -> DomainSettings
        ensures { result ≡ held_of self }
    {
        match self.role {
            Role::Absent => DomainSettings::absent(),
            Role::Slave => self.slave_held(),
            Role::Master => self.master_held(),
        }
    }

    // The settings of an absent domain: all 0.
    pub fn absent() -> DomainSettings
        ensures { result ≡ absent_held }
    {
        DomainSettings {
            follow_up_time: 0,
            loss_time: 0,
            future_threshold: 0,
            past_threshold: 0,
            period: 0,
            confirmation_time: 0,
            ids: DataIds {
                sync: [0; DataIds::COUNTERS],
                fup: [0; DataIds::COUNTERS],
            },
            role: Role::Absent,
            mode: CheckMode::Validated,
            jump_width: 0,
            hysteresis: 0,
            clear_count: 0,
            security: Security::Plain,
            user: UserBytes(0, 0, 0),
        }
    }

    // Settings that no node takes: a slave with J 0.
    pub fn no_settings() -> DomainSettings
        ensures { result ≡ no_settings }
    {
        DomainSettings::absent().slave_held()
    }

    fn slave_held(self) -> DomainSettings
        ensures { result ≡ slave_held self }
    {
        DomainSettings {
            follow_up_time: self.follow_up_time,
            loss_time: self.loss_time,
            future_threshold: self.future_threshold,
            past_threshold: self.past_threshold,
            ids: self.ids,
            role: Role::Slave,
            mode: self.mode,
            jump_width: self.jump_width,
            hysteresis: self.hysteresis,
            clear_count: self.clear_count,
            ..DomainSettings::absent()
        }
    }

    fn master_held(self) -> DomainSettings
        ensures { result ≡ master_held self }
    {
        DomainSettings {
            period: self.period,
            confirmation_time: self.confirmation_time,
            ids: self.ids,
            role: Role::Master,
            security: self.security,
            user: self.user,
            ..DomainSettings::absent()
        }
    }
}
