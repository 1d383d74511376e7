// An item of the trial: a settings block, a queue, a frame on one record or any other call record, and its line.
#![tactic(auto)]

pub mod block;
mod domain_block;
pub mod item;
pub mod line;
mod one;
mod queue;

ghost use Rattle.std.specs.Prelude.{◌≡◌};
ghost use Rattle.bench_record.specs.Step.{Answered};
ghost use Rattle.trial_step.specs.TrialLine.{trial_line};
ghost use Rattle.trial_step.specs.Step.{
  padded_frame,
  given_frame,
  lent_length,
  lent_buffer,
  Renewed,
  TrialStepped,
};

use crate::block::settings_of;
use crate::item::{Item, item_of};
use crate::line::{put_number, put_trial_line};
use crate::one::take_one;
use crate::queue::take_queue;
use bench_record::step::{Step, bad_record};
use bench_record::{asked_by, payload};
use node::Node;
use node_call::{Request, call};
use refusal::Numbered;
use text::Out;
use text::fields::{byte_at, pair_at};

// The item's line, and the node after it. A bad record ends the run.
pub fn trial_step(node: Node, item: u64, bytes: &[u8], out: &mut Out) -> Step
    ensures { TrialStepped node item bytes.now out.old result out.new }
{
    match item_of(bytes) {
        Item::Settings => return renew(item, bytes, out),
        Item::Queue => return take_queue(node, item, bytes, out),
        Item::One => return take_one(node, item, bytes, out),
        Item::Record => {}
    }
    let Some(request) = asked_by(bytes) else {
        return bad_record(node, item, out);
    };
    ask(node, item, request, bytes, out)
}

// The call that a record asks for, with the record's frame and a lent buffer of A5s, and its line.
fn ask(node: Node, item: u64, request: Request, bytes: &[u8], out: &mut Out) -> Step
    ensures { Answered (trial_line item) node request (given_frame bytes.now)
        (lent_buffer bytes.now request) out.old result out.new }
{
    let frame = padded_frame(bytes);
    let frame_length = byte_at(bytes, 3) as usize;
    // an array with a length beside, here and in `queue`: no heap
    let mut buffer = [0xA5u8; 512];
    let length = lent_length(request, bytes);
    let called = call(node, request, &frame[..frame_length], &mut buffer[..length]);
    put_trial_line(out, item, called.answer, &buffer[..length]);
    Step {
        node: called.node,
        goes_on: true,
    }
}

// The node of a settings block, also where it is refused.
fn renew(item: u64, bytes: &[u8], out: &mut Out) -> Step
    ensures { Renewed item bytes.now out.old result out.new }
{
    let new = Node::new(settings_of(bytes));
    put_number(out, item, new.answer.number());
    Step {
        node: new.node,
        goes_on: true,
    }
}

// The length of the lent buffer: in the payload's first two bytes for a main cycle, after the counter for
// a confirmation. Above 512 it counts as 512.
fn lent_length(request: Request, bytes: &[u8]) -> usize
    ensures { result ≡ lent_length request bytes.now }
{
    match request {
        Request::Frame(_) => 0,
        Request::Read(_, _) => 0,
        Request::Set(_, _, _, _) => 0,
        Request::Cycle(_) => (pair_at(bytes, 12) as usize).min(512),
        Request::Confirm(_, _, _) => (pair_at(bytes, 13) as usize).min(512),
    }
}

// The payload, and zeros.
fn padded_frame(bytes: &[u8]) -> [u8; 255]
    ensures { result ≡ padded_frame bytes.now }
{
    let mut frame = [0u8; 255];
    frame[..8].copy_from_slice(&payload(bytes));
    frame
}
