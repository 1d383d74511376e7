// The two clocks of a node (paper 01, "Two clocks"): readings of the Virtual Local Time, the Global Time, the base that
// ties one to the other, and how two times differ. No function takes a reading where a time is expected, nor a time
// where a reading is; a span of readings is plain nanoseconds, and a time is carried on by one. Nothing here refuses:
// each function answers on every value, also on those that no node holds.
#![tactic(auto)]

pub mod apart;
mod base;
pub mod difference;
mod over;
mod reading;
mod time;

pub use apart::{Apart, compare};
pub use base::TimeBase;
pub use difference::{exceeds, magnitude, minus, minus_at, minus_exceeds, order};
pub use over::{Over, carried_over};
pub use reading::VirtualLocalTime;
pub use time::GlobalTime;
