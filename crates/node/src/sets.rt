// A node's set call (paper 01, "A master's domain").
ghost use Rattle.std.specs.Prelude.{◌≡◌};
ghost use Rattle.node.specs.Set.{node_set_of};

use crate::{Node, NodeStep};
use call_set::set_call;
use clock::VirtualLocalTime;
use refusal::Outcome;
use round::turns::PLACES;

// The base of a domain holds the given time at t: 1, 4, 9.
pub fn on_set(
    mut node: Node,
    domain: u8,
    t: VirtualLocalTime,
    seconds: u32,
    nanoseconds: u32,
) -> NodeStep<Outcome<()>>
    ensures { result ≡ node_set_of node domain t seconds nanoseconds }
{
    let at = (domain % PLACES) as usize;
    let call = set_call(node.domains[at], node.kept, domain, t, seconds, nanoseconds);
    node.domains[at] = call.domain;
    node.kept = call.kept;
    NodeStep {
        answer: call.answer,
        node,
    }
}
