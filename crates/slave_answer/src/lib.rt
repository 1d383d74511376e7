// What a slave answers to a frame that it takes (paper 01, "A slave's domain"): an answer is this, or a refusal. There is
// no function here.
#![tactic(auto)]

// A SYNC that opened a pair; a FUP that gave the domain its first time; or one that moved its base, by D.
#[derive(Clone, Copy)]
pub enum Taken {
    Opened,
    First,
    Updated(i64),
}
