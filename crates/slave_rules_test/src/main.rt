// A slave's rules (paper 01, "A slave's domain") over all counters of a frame, about H for the row of good ones (paper
// 02, request 5), at both sides of each threshold of a leap, and about the count that clears it (request 3).
#![tactic(auto)]

mod counters;
mod leaps;
mod rows;

fn main(rt: HostRuntime) {
    counters::widths(&rt);
    counters::loss(&rt);
    rows::rows(&rt);
    leaps::limits(&rt);
    leaps::runs(&rt);
    leaps::anew(&rt);
}
