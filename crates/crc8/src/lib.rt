// Paper 01, "Frames": CRC8H2F of the AUTOSAR CRC library, the check byte of a secured frame, worked
// through a constant table of 256 bytes. No call refuses: every list of bytes has its answer.
// `frame_write` and `frame_check` call `check`.
#![tactic(auto)]

mod check_byte;
mod table;

pub use check_byte::{byte_step, check, crc};
pub use table::entry;
