// The settings of a node (paper 01, "Settings of a node"), a line each: the limits of the ranges, and what is
// held. Bytes are written in hexadecimal, numbers in decimal. The trial's tests have every range at both sides
// of its edges.
#![tactic(auto)]

mod fields;
mod held;
mod limits;

fn main(rt: HostRuntime) {
    limits::limits(&rt);
    held::roles(&rt);
}
