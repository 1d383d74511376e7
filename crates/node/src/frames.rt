// A node's frame call (paper 01, "A slave's domain").
ghost use Rattle.std.specs.Prelude.{◌≡◌};
ghost use Rattle.node.specs.Frame.{node_frame_of};

use crate::{Node, NodeStep};
use call_frame::frame_call;
use clock::VirtualLocalTime;
use frame_read::named_domain;
use refusal::Outcome;
use round::turns::PLACES;
use slave_answer::Taken;

// A frame of any length at t: 1, 2, 3, 4, 5; then 6, or 7, 8, 9.
pub fn on_frame(mut node: Node, t: VirtualLocalTime, bytes: &[u8]) -> NodeStep<Outcome<Taken>>
    ensures { result ≡ node_frame_of node t bytes.now }
{
    let at = (named_domain(bytes) % PLACES) as usize;
    let call = frame_call(node.domains[at], node.kept, t, bytes);
    node.domains[at] = call.domain;
    node.kept = call.kept;
    NodeStep {
        answer: call.answer,
        node,
    }
}
