// A node (paper 01): sixteen records, the kept reading, S and the round, with its constructor. Its calls have a file
// each, state by value in and out: a call looks a record up, calls it or goes round, and stores what comes back. No
// call has a `requires`; each answers, or refuses by a number, and then, but under 6 and 15, gives the node back as it
// was.
#![tactic(auto)]

pub mod confirms;
pub mod cycles;
pub mod frames;
pub mod reads;
pub mod sets;

ghost use Rattle.std.specs.Prelude.{◌≡◌};
ghost use Rattle.node.specs.New.{records_of, fresh_node, new_of};

use clock::VirtualLocalTime;
pub use confirms::on_confirmation;
pub use cycles::on_main_cycle;
use domain::Domain;
pub use frames::on_frame;
pub use reads::on_read;
use refusal::Outcome;
pub use sets::on_set;
use settings::{DomainSettings, NodeSettings};

#[derive(Clone, Copy)]
pub struct Node {
    pub domains: [Domain; Node::DOMAINS],
    // The greatest reading of a successful frame, set, main cycle or confirmation call.
    pub kept: VirtualLocalTime,
    // S, SYNC frames per main cycle.
    pub syncs_per_cycle: u8,
    // Where the next round of the main cycle starts: after the domain served last.
    pub round: u8,
}

// What a call answers, and the node after it.
#[derive(Drop)]
pub struct NodeStep<A> {
    pub answer: A,
    pub node: Node,
}

impl Node {
    // Domains 0 to 15.
    pub const DOMAINS: usize = NodeSettings::DOMAINS;

    // A fresh node; or 14, and one with all domains absent and S 1.
    pub fn new(settings: NodeSettings) -> NodeStep<Outcome<()>>
        ensures { result ≡ new_of settings }
    {
        match settings.judge() {
            Err(refusal) => NodeStep {
                answer: Err(refusal),
                node: fresh_node(1, [DomainSettings::absent(); Node::DOMAINS]),
            },
            Ok(()) => NodeStep {
                answer: Ok(()),
                node: fresh_node(settings.syncs_per_cycle, settings.domains),
            },
        }
    }
}

fn fresh_node(syncs_per_cycle: u8, settings: [DomainSettings; Node::DOMAINS]) -> Node
    ensures { result ≡ fresh_node syncs_per_cycle settings }
{
    Node {
        domains: fresh_records(settings),
        kept: VirtualLocalTime(0),
        syncs_per_cycle,
        round: 0,
    }
}

fn fresh_records(settings: [DomainSettings; Node::DOMAINS]) -> [Domain; Node::DOMAINS]
    ensures { result ≡ records_of 0 settings }
{
    let mut records = [Domain::new(0, DomainSettings::absent()); Node::DOMAINS];
    for (d, one) in settings.iter().enumerate() {
        records[d] = Domain::new(d as u8, *one);
    }
    records
}
