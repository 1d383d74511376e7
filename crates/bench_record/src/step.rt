// What a record makes of a run (paper 01, "Bench program"), of the bench or of the trial.
ghost use Rattle.bench_record.specs.Step.{Ended};

use node::Node;
use text::Out;

#[derive(Drop)]
pub struct Step {
    pub node: Node,
    // Whether the run goes on.
    pub goes_on: bool,
}

// A bad record: its line, and the end of the run. The node stays as it was.
pub fn bad_record(node: Node, item: u64, out: &mut Out) -> Step
    ensures { Ended node item out.old result out.new }
{
    out.put_bad(item);
    Step {
        node,
        goes_on: false,
    }
}
