// A frame on one record (paper 02, request 11), kind 7 of the trial: byte 3 has the record's place in its lower five
// bits, and in the upper three how many bytes the frame is short of eight.
ghost use Rattle.trial_step.specs.One.{OneStepped};

use crate::line::put_number;
use bench_record::payload;
use bench_record::step::Step;
use clock::VirtualLocalTime;
use lent_frame::frame_lent;
use node::Node;
use refusal::Numbered;
use round::turns::PLACES;
use text::Out;
use text::fields::{byte_at, long_at};

// The frame of an item on the record at its place, modulo 16, and its line. The record is lent for the call, and stored
// as it comes back with the reading that is kept.
pub(crate) fn take_one(mut node: Node, item: u64, bytes: &[u8], out: &mut Out) -> Step
    ensures { OneStepped node item bytes.now out.old result out.new }
{
    let code = byte_at(bytes, 3);
    let t = VirtualLocalTime(long_at(bytes, 4));
    let frame = payload(bytes);
    let length = 8 - (code / 32) as usize;
    let place = (code % 32 % PLACES) as usize;
    let call = frame_lent(node.domains[place], node.kept, t, &frame[..length]);
    let answer = call.answer;
    let record = call.domain;
    let kept = call.kept;
    node.domains[place] = record;
    node.kept = kept;
    put_number(out, item, answer.number());
    Step {
        node,
        goes_on: true,
    }
}
