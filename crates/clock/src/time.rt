// Global times (paper 01, "Two clocks"), and the time a span later.
ghost use Rattle.std.specs.Prelude.{◌≡◌};
ghost use Rattle.clock.specs.Time.{is_time, is_within, most_received, most_read, advanced};

use crate::over::carried_over;

// A global time: seconds, and nanoseconds.
#[derive(Clone, Copy)]
pub struct GlobalTime(pub u64, pub u32);

impl GlobalTime {
    // The nanoseconds of one second, and the most that a time has beside its seconds.
    pub const SECOND: u64 = 1_000_000_000;

    pub const NANOSECONDS_MAX: u32 = 999_999_999;
    // The most seconds of a time that a user sets, which are those of 32 bits; of one that is
    // received, with an OVS of 3; and of one that is read, the whole range of readings later.
    pub const SET_SECONDS_MAX: u64 = 4_294_967_295;

    pub const RECEIVED_SECONDS_MAX: u64 = 4_294_967_298;

    pub const READ_SECONDS_MAX: u64 = 5_294_967_298;

    // Whether its nanoseconds are at most NANOSECONDS_MAX.
    pub fn is_time(self) -> bool
        ensures { result ≡ is_time self }
    {
        self.1 <= GlobalTime::NANOSECONDS_MAX
    }

    // Whether it is a time that can be received.
    pub fn is_received(self) -> bool
        ensures { result ≡ is_within most_received self }
    {
        self.is_within(GlobalTime::RECEIVED_SECONDS_MAX)
    }

    // Whether it is a time that can be read.
    pub fn is_read(self) -> bool
        ensures { result ≡ is_within most_read self }
    {
        self.is_within(GlobalTime::READ_SECONDS_MAX)
    }

    fn is_within(self, seconds: u64) -> bool
        ensures { result ≡ is_within seconds self }
    {
        self.0 <= seconds && self.is_time()
    }

    // The time a span of nanoseconds later.
    pub fn advance(self, span: u64) -> GlobalTime
        ensures { result ≡ advanced self span }
    {
        let over = carried_over(self.1, (span % GlobalTime::SECOND) as u32);
        let carry = span / GlobalTime::SECOND + (over.seconds as u64);
        GlobalTime(self.0.saturating_add(carry), over.nanoseconds)
    }
}
