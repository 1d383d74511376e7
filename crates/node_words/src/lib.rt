// A node in 354 words that a product lends: the kept reading; S and the round; then the sixteen records of 22 words.
// A record is taken out of the words by value, and of its state a call puts back its own part only: a frame the first
// eight words, a set three of them, a main cycle and a confirmation the last three. No call copies a node. Any words
// say a node.
#![tactic(auto)]

mod puts;
mod records;

pub use puts::{put_base, put_frame, put_sent};
use record_words::{SETTINGS_WORDS, STATE_WORDS};
pub use records::record_in;
use settings::NodeSettings;

// The words of a record, those before the records, and those of a node.
pub const RECORD_WORDS: usize = SETTINGS_WORDS + STATE_WORDS;

pub const HEAD_WORDS: usize = 2;

pub const NODE_WORDS: usize = HEAD_WORDS + NodeSettings::DOMAINS * RECORD_WORDS;
