// What comes over the second, by comparing and subtracting: the whole seconds of two numbers of nanoseconds together,
// and the nanoseconds. A FUP is worked out in the interrupt of its confirmation, whose stack has no room for the
// controller's long division (paper 02, request 2), and a time that is read is spared one. A loop that subtracts is
// compiled back into that division; straight steps are not. `tools/controller` looks at what the compiler made.
ghost use Rattle.std.specs.Prelude.{◌≡◌};
ghost use Rattle.clock.specs.Over.{over_of};

// Whole seconds, and the nanoseconds beside them.
#[derive(Drop)]
pub struct Over {
    pub seconds: u8,
    pub nanoseconds: u32,
}

// What comes over of some nanoseconds a span later. Any two numbers of 32 bits are less than 9 seconds together.
pub fn carried_over(nanoseconds: u32, span: u32) -> Over
    ensures { result ≡ over_of nanoseconds span }
{
    // Four steps written out: a loop of them may be compiled back into the long division that this spares.
    let mut rest = (nanoseconds as u64) + (span as u64);
    let mut seconds: u8 = 0;
    if 8_000_000_000 <= rest {
        rest -= 8_000_000_000;
        seconds += 8;
    }
    if 4_000_000_000 <= rest {
        rest -= 4_000_000_000;
        seconds += 4;
    }
    if 2_000_000_000 <= rest {
        rest -= 2_000_000_000;
        seconds += 2;
    }
    if 1_000_000_000 <= rest {
        rest -= 1_000_000_000;
        seconds += 1;
    }
    Over {
        seconds,
        nanoseconds: rest as u32,
    }
}
