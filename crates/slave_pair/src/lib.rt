// The pair of a slave's domain (paper 01, "A slave's domain"): the SYNC that opens it, and the FUP that
// joins it.
#![tactic(auto)]

mod joining;
mod pair;

pub use joining::join;
pub use pair::{pair_of, user_in};
