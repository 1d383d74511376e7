// The rules of a master's domain (paper 01, "A master's domain"), on the parts they read: when a domain
// is due, and how its frames go out. The FUP of an open SYNC is `master_follow`'s. No record is taken or given
// here: `master_set` and the like have the steps on one.
#![tactic(auto)]

mod due;
mod sent;

pub use due::{Due, due_at};
pub use sent::protection;
