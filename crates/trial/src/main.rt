// The trial: settings blocks and call records from standard input, a line for each.
#![tactic(auto)]

use runs::Trial;

fn main(rt: HostRuntime) {
    runs::run_on_input(&rt, &Trial);
}
