// Paper 01, "Frames": CRC8H2F, a byte at a time through the table, with "start 0xFF, final
// exclusive-or 0xFF". One remainder serves `crc` and `check`.
ghost use Rattle.std.specs.Prelude.{◌≡◌};
ghost use Rattle.crc8.specs.Crc8.{byte_step_of, remainder_of, crc_of, check_of};

use crate::table::entry;

const START: u8 = 0xFF;

const FINAL: u8 = 0xFF;

// The remainder after one more byte.
pub fn byte_step(remainder: u8, byte: u8) -> u8
    ensures { result ≡ byte_step_of remainder byte }
{
    entry(remainder ^ byte)
}

// The remainder after `bytes`: `start` itself where there are none.
fn remainder(start: u8, bytes: &[u8]) -> u8
    ensures { result ≡ remainder_of start bytes.now }
{
    bytes.iter().fold(start, |r, byte| byte_step(r, *byte))
}

// CRC8H2F of `bytes`: 0 where there are none.
#[tactic(auto, unfolding(crate::specs::Crc8::crc_of))]
pub fn crc(bytes: &[u8]) -> u8
    ensures { result ≡ crc_of bytes.now }
{
    remainder(START, bytes) ^ FINAL
}

// CRC8H2F of `bytes` and then the DataID.
#[tactic(auto, unfolding(crate::specs::Crc8::check_of, crate::specs::Crc8::crc_of))]
pub fn check(bytes: &[u8], data_id: u8) -> u8
    ensures { result ≡ check_of bytes.now data_id }
{
    byte_step(remainder(START, bytes), data_id) ^ FINAL
}
