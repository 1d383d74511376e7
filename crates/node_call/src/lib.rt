// Any call to a node (paper 01): which one, what it is given, and what it answers. The bytes of a frame and
// the lent buffer stand beside it.
#![tactic(auto)]

ghost use Rattle.std.specs.Prelude.{◌≡◌};
ghost use Rattle.node_call.specs.Calls.{call_number};
ghost use Rattle.node_call.specs.Called.{CalledIn};

use call_read::Shown;
use clock::VirtualLocalTime;
use frame::Fup;
use node::{Node, NodeStep, on_confirmation, on_frame, on_main_cycle, on_read, on_set};
use refusal::{Numbered, Outcome};
use slave_answer::Taken;

#[derive(Clone, Copy)]
pub enum Request {
    // At a reading.
    Frame(VirtualLocalTime),
    // Of a domain, at a reading.
    Read(u8, VirtualLocalTime),
    // Of a domain, at a reading, to seconds and nanoseconds.
    Set(u8, VirtualLocalTime, u32, u32),
    // At a reading.
    Cycle(VirtualLocalTime),
    // Of a domain, at a reading, with a counter.
    Confirm(u8, VirtualLocalTime, u8),
}

#[derive(Clone, Copy)]
pub enum CallAnswer {
    Frame(Outcome<Taken>),
    Read(Outcome<Shown>),
    Set(Outcome<()>),
    Cycle(Outcome<usize>),
    Confirm(Outcome<Fup>),
}

impl CallAnswer {
    // The paper's number.
    pub fn number(self) -> u8
        ensures { result ≡ call_number self }
    {
        match self {
            CallAnswer::Frame(frame) => frame.number(),
            CallAnswer::Read(read) => read.number(),
            CallAnswer::Set(set) => set.number(),
            CallAnswer::Cycle(cycle) => cycle.number(),
            CallAnswer::Confirm(confirm) => confirm.number(),
        }
    }
}

// A frame call takes `frame`; a main cycle and a confirmation are lent `out`.
pub fn call(node: Node, request: Request, frame: &[u8], out: &mut [u8]) -> NodeStep<CallAnswer>
    ensures { CalledIn node request frame.now out.old result out.new }
{
    match request {
        Request::Frame(t) => {
            let step = on_frame(node, t, frame);
            NodeStep {
                answer: CallAnswer::Frame(step.answer),
                node: step.node,
            }
        }
        Request::Read(domain, t) => NodeStep {
            answer: CallAnswer::Read(on_read(node, domain, t)),
            node,
        },
        Request::Set(domain, t, seconds, nanoseconds) => {
            let step = on_set(node, domain, t, seconds, nanoseconds);
            NodeStep {
                answer: CallAnswer::Set(step.answer),
                node: step.node,
            }
        }
        Request::Cycle(t) => {
            let step = on_main_cycle(node, t, out);
            NodeStep {
                answer: CallAnswer::Cycle(step.answer),
                node: step.node,
            }
        }
        Request::Confirm(domain, t, counter) => {
            let step = on_confirmation(node, domain, t, counter, out);
            NodeStep {
                answer: CallAnswer::Confirm(step.answer),
                node: step.node,
            }
        }
    }
}
