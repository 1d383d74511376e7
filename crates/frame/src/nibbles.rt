// Byte 2 of a frame (paper 01, "Frames"): the domain in bits 7-4, the counter in bits 3-0.
ghost use Rattle.std.specs.Prelude.{◌≡◌};
ghost use Rattle.frame.specs.ByteTwo.{domain_of, counter_of, byte_two_of};

// Counters 0 to 15.
pub const COUNTERS: u8 = 16;

pub fn domain_of(two: u8) -> u8
    ensures { result ≡ domain_of two }
{
    two / 16
}

pub fn counter_of(two: u8) -> u8
    ensures { result ≡ counter_of two }
{
    two % 16
}

pub fn byte_two(domain: u8, counter: u8) -> u8
    ensures { result ≡ byte_two_of domain counter }
{
    domain % 16 * 16 + counter % 16
}
