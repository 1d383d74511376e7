// A node's main cycle (paper 01, "A master's domain").
ghost use Rattle.std.specs.Prelude.{◌≡◌};
ghost use Rattle.node.specs.Cycle.{CycledIn};

use crate::{Node, NodeStep};
use admission::is_good_reading;
use clock::VirtualLocalTime;
use refusal::{Outcome, Refusal};
use round::go_round;

// How many frames a main cycle wrote. The first S due domains send: 1, 12. Their frames are written one after another
// from the start of `out`; all other bytes stay.
pub fn on_main_cycle(node: Node, t: VirtualLocalTime, out: &mut [u8]) -> NodeStep<Outcome<usize>>
    ensures { CycledIn node t out.old result out.new }
{
    if !is_good_reading(node.kept, t) {
        return NodeStep {
            answer: Err(Refusal::Reading),
            node,
        };
    }
    if out.len() < 8 * (node.syncs_per_cycle as usize) {
        return NodeStep {
            answer: Err(Refusal::NoRoom),
            node,
        };
    }
    let domains = node.domains;
    let round = go_round(domains, node.round, t, node.syncs_per_cycle, out);
    let domains = round.domains;
    NodeStep {
        answer: Ok(round.sent),
        node: Node {
            domains,
            kept: t,
            round: round.next,
            ..node
        },
    }
}
