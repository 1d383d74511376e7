// A record of the bench (paper 01, "Bench program"): the call it asks for, and its line.
#![tactic(auto)]

pub mod line;

ghost use Rattle.bench_record.specs.Step.{Answered};
ghost use Rattle.bench_step.specs.BenchLine.{bench_line};
ghost use Rattle.bench_record.specs.Record.{lent};
ghost use Rattle.bench_step.specs.Step.{BenchStepped};

use crate::line::put_bench_line;
use bench_record::step::{Step, bad_record};
use bench_record::{asked_by, payload};
use node::Node;
use node_call::{Request, call};
use text::Out;

// The record's line, and the node after its call. A bad record ends the run.
pub fn bench_step(node: Node, item: u64, bytes: &[u8], out: &mut Out) -> Step
    ensures { BenchStepped node item bytes.now out.old result out.new }
{
    match asked_by(bytes) {
        None => bad_record(node, item, out),
        Some(request) => answer(node, item, request, payload(bytes), out),
    }
}

// A call with the payload as its frame; what it writes goes to 8 bytes that it is lent.
fn answer(node: Node, item: u64, request: Request, payload: [u8; 8], out: &mut Out) -> Step
    ensures { Answered (bench_line item) node request payload lent out.old result out.new }
{
    let mut sent = [0u8; 8];
    let called = call(node, request, &payload, &mut sent);
    put_bench_line(out, item, called.answer, &sent);
    Step {
        node: called.node,
        goes_on: true,
    }
}
