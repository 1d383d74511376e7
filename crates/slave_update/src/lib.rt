// The update of a slave's domain (paper 01, "A slave's domain"): what a pair and its FUP make of the base,
// the leap it is, and what it answers.
#![tactic(auto)]

mod leap;
mod update;

pub use leap::leap_after;
pub use update::{Update, new_base, update_by};
