// The bench (paper 01, "Bench program"): records of 20 bytes from standard input, a line for each.
#![tactic(auto)]

use runs::Bench;

fn main(rt: HostRuntime) {
    runs::run_on_input(&rt, &Bench);
}
