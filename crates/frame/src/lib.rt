// SYNC and FUP frames, plain and secured (paper 01, "Frames"): the values of a frame, its types, byte 2,
// and the DataIDs. The codec knows frames and not the node: a domain here is a number in a frame, and
// nanoseconds of any size are values.
#![tactic(auto)]

mod data_ids;
mod nibbles;
mod types;
mod values;

pub use data_ids::{DataIds, id_at};
pub use nibbles::{COUNTERS, byte_two, counter_of, domain_of};
pub use types::FrameType;
pub use values::{Frame, Fup, Protection, Sync};
