// Local readings (paper 01, "Two clocks"): nanoseconds of the one clock of a node.
ghost use Rattle.std.specs.Prelude.{◌≡◌};
ghost use Rattle.clock.specs.Reading.{is_reading, span_of};

// A reading of the local clock, in nanoseconds.
#[derive(Clone, Copy)]
pub struct VirtualLocalTime(pub u64);

impl VirtualLocalTime {
    // The greatest reading: 10^18 ns, some 31 years.
    pub const MAX: VirtualLocalTime = VirtualLocalTime(1_000_000_000_000_000_000);

    // Whether it is at most MAX.
    pub fn is_reading(self) -> bool
        ensures { result ≡ is_reading self }
    {
        self.0 <= VirtualLocalTime::MAX.0
    }

    // The nanoseconds from an earlier reading to this one: 0 where that one is later.
    pub fn since(self, earlier: VirtualLocalTime) -> u64
        ensures { result ≡ span_of earlier self }
    {
        self.0.saturating_sub(earlier.0)
    }
}
