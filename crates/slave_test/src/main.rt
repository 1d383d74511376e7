// The steps of a slave's domain (paper 01, "A slave's domain"), a line each: the step, its answer and
// number, with D where there is one, and the record after it. A time is written with its reading, as
// seconds.nanoseconds@reading; user bytes are written in hexadecimal, the other numbers in decimal.
#![tactic(auto)]

mod cases;
mod inputs;
mod record;
mod steps;

fn main(rt: HostRuntime) {
    cases::updates(&rt);
    cases::earlier(&rt);
    cases::rows(&rt);
    cases::far_leaps(&rt);
    cases::first_clears(&rt);
    cases::timeout(&rt);
    cases::no_frames(&rt);
}
