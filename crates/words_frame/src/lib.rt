// A frame, and a receive queue, to a node in words that a product lends (paper 01, "A slave's domain", and paper 02,
// request 4). The record that the frame names is taken out of the words, called, and its words are put back: under 0,
// and under 6 and 15, which keep a row. Under any other number the words stay as they were, to the bit.
#![tactic(auto)]

mod frames;
mod queues;

pub use frames::frame_in;
pub use queues::queue_in;
