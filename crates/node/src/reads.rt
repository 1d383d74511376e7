// A node's read call (paper 01, "Refusal numbers").
ghost use Rattle.std.specs.Prelude.{◌≡◌};
ghost use Rattle.node.specs.Read.{node_read_of};

use crate::Node;
use call_read::{Shown, read_call};
use clock::VirtualLocalTime;
use refusal::Outcome;
use round::turns::PLACES;

// Time, status, user bytes and update counter of a domain at t: 1, 4, 10. It changes nothing.
pub fn on_read(node: Node, domain: u8, t: VirtualLocalTime) -> Outcome<Shown>
    ensures { result ≡ node_read_of node domain t }
{
    let at = (domain % PLACES) as usize;
    read_call(node.domains[at], node.kept, domain, t)
}
