// The steps of a master's domain (paper 01, "A master's domain") that no call to a node shows, a line each: the step,
// its answer and number, and the record after it. A time is written with its reading, as
// seconds.nanoseconds@reading; user bytes are written in hexadecimal, the other numbers in decimal.
#![tactic(auto)]

mod inputs;
mod record;
mod steps;
mod strange;

fn main(rt: HostRuntime) {
    strange::roles(&rt);
    strange::earlier(&rt);
    strange::next_counter(&rt);
    strange::updates(&rt);
    strange::overflow_seconds(&rt);
    strange::nanoseconds(&rt);
}
