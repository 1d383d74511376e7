// A node's confirmation call (paper 01, "A master's domain").
ghost use Rattle.std.specs.Prelude.{◌≡◌};
ghost use Rattle.node.specs.Confirm.{NodeConfirmedIn};

use crate::{Node, NodeStep};
use call_confirm::confirm_call;
use clock::VirtualLocalTime;
use frame::Fup;
use refusal::Outcome;
use round::turns::PLACES;

// The FUP of a domain's open SYNC, written at the start of `out`: 1, 4, 11, 12.
pub fn on_confirmation(
    mut node: Node,
    domain: u8,
    t: VirtualLocalTime,
    counter: u8,
    out: &mut [u8],
) -> NodeStep<Outcome<Fup>>
    ensures { NodeConfirmedIn node domain t counter out.old result out.new }
{
    let at = (domain % PLACES) as usize;
    let call = confirm_call(node.domains[at], node.kept, domain, t, counter, out);
    node.domains[at] = call.domain;
    node.kept = call.kept;
    NodeStep {
        answer: call.answer,
        node,
    }
}
