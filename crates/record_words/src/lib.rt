// One domain's record in 22 words, for a product that keeps its node as words: its settings and number in eleven, its
// state in eleven. Times stand alone in a word, small fields share one. What words say is total: a code that no case
// has says the first case.
//
//   settings  0 F  1 L  2 future  3 past  4 period  5 packed(C; role, mode, J, number)
//             6 packed(H, count; user 0, 1, 2, security)  7 to 10 the DataIDs
//   state     0 pair's reading  1 packed(seconds; counter, user 0, user 1, code)   a SYNC's
//             2 last's reading  3 packed(0; counter, row, code, 0)
//             4 base's seconds  5 its reading  6 packed(nanoseconds; code, updates, leap, run)   a set's, and a FUP's
//             7 packed(0; user 0, 1, 2, SGW)
//             8 sent's reading  9 packed(seconds; counter, code, next counter, 0)  10 nanoseconds   a main cycle's
//
// A packed word is a half and four bytes.
#![tactic(auto)]

mod given;
mod pack;
mod parts;
mod record;

pub use given::given_of;
pub use pack::packed;
pub use parts::{held_of, role_of, sending_of};
pub use record::{domain_of, number_of, settings_of, settings_words, state_words};

// The words of a record's settings, and those of its state.
pub const SETTINGS_WORDS: usize = 11;

pub const STATE_WORDS: usize = 11;
