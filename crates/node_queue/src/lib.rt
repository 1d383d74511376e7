// A node's receive queue (paper 02, request 4): up to 32 frames with their readings in one call, and a number for each
// in a lent buffer. The frames are taken as `on_frame` takes them, one after another on the one node: no frame costs a
// copy of it.
#![tactic(auto)]

ghost use Rattle.std.specs.Prelude.{◌≡◌};
ghost use Rattle.node_queue.specs.Queue.{queue_answer, QueuedIn};

use call_frame::frame_call;
use clock::VirtualLocalTime;
use frame_read::named_domain;
use node::Node;
use refusal::{Numbered, Outcome, Refusal};

// The most frames that a queue has.
pub const QUEUE_MOST: usize = 32;

// The node first: behind an answer of two bytes the compiler would hold it twice.
#[derive(Drop)]
pub struct NodeQueue {
    pub node: Node,
    // Taken, each frame by its own number; or refused, and nothing is taken.
    pub answer: Outcome<()>,
}

// Frames of eight bytes one after another in `frames`, each at its reading; the number of each goes to its place in
// `answers`: 12, 2. Bytes beyond them stay. A frame that is refused ends nothing, and the next is judged on the node
// after it.
pub fn on_queue(mut node: Node, readings: &[u64], frames: &[u8], answers: &mut [u8]) -> NodeQueue
    ensures { QueuedIn node readings.now frames.now answers.old result
        answers.new }
{
    let answer = judge(readings.len(), frames.len(), answers.len());
    if answer.is_err() {
        return NodeQueue { node, answer };
    }
    for (i, &t) in readings.iter().enumerate() {
        let bytes = &frames[8 * i..8 * i + 8];
        let at = (named_domain(bytes) as usize) % Node::DOMAINS;
        let call = frame_call(node.domains[at], node.kept, VirtualLocalTime(t), bytes);
        node.domains[at] = call.domain;
        node.kept = call.kept;
        answers[i] = call.answer.number();
    }
    NodeQueue {
        node,
        answer: Ok(()),
    }
}

// By how many readings there are, how many bytes of frames, and how much room for the numbers.
pub fn judge(readings: usize, bytes: usize, room: usize) -> Outcome<()>
    ensures { result ≡ queue_answer readings bytes room }
{
    if room < readings {
        return Err(Refusal::NoRoom);
    }
    if QUEUE_MOST < readings {
        return Err(Refusal::Length);
    }
    if bytes != 8 * readings {
        return Err(Refusal::Length);
    }
    Ok(())
}
