// A base (paper 01, "Two clocks"): where the two clocks meet.
ghost use Rattle.std.specs.Prelude.{◌≡◌};
ghost use Rattle.clock.specs.Base.{base_of, time_at, PartsOf};

use crate::reading::VirtualLocalTime;
use crate::time::GlobalTime;

// A global time and the reading at which it was true.
#[derive(Clone, Copy)]
pub struct TimeBase {
    pub time: GlobalTime,
    pub at: VirtualLocalTime,
}

// A time in parts: seconds, and nanoseconds that are not carried into them.
#[derive(Drop)]
pub(crate) struct Parts {
    pub(crate) seconds: u64,
    pub(crate) nanoseconds: u64,
}

impl TimeBase {
    // The base at which `time` is true at the reading `at`.
    pub fn new(time: GlobalTime, at: VirtualLocalTime) -> TimeBase
        ensures { result ≡ base_of time at }
    {
        TimeBase { time, at }
    }

    // Its time at a reading: the held time where that reading is an earlier one.
    pub fn time_at(self, t: VirtualLocalTime) -> GlobalTime
        ensures { result ≡ time_at self t }
    {
        let time = self.time;
        let at = self.at;
        time.advance(t.since(at))
    }

    // The same in parts. Nothing is divided where what has passed is within the range of readings, and the seconds are
    // below 2^63, so that no carry meets their end.
    pub(crate) fn parts_at(self, t: VirtualLocalTime) -> Parts
        ensures { PartsOf (time_at self t) result }
    {
        let time = self.time;
        let at = self.at;
        let span = t.since(at);
        if span <= VirtualLocalTime::MAX.0 && time.0 < 0x8000_0000_0000_0000 {
            return Parts {
                seconds: time.0,
                nanoseconds: (time.1 as u64) + span,
            };
        }
        let later = time.advance(span);
        Parts {
            seconds: later.0,
            nanoseconds: later.1 as u64,
        }
    }
}
