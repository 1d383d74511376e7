// A run of the bench or of the trial over standard input: items in, a line for each out. Of what is read and
// written no contract can speak: these functions are proved safe and ending, and what an item does is the promise
// of `bench_step` and `trial_step`.
#![tactic(auto)]

use bench_record::step::Step;
use bench_settings::bench_settings;
use bench_step::bench_step;
use node::Node;
use settings::{DomainSettings, NodeSettings};
use std::io::Read;
use text::Out;
use text::pieces::{keep_rest, next_item, refill, say_unread, with_room, write_out};
use trial_step::trial_step;

// What a program makes of its items.
pub trait Program {
    // The settings of the node that a run begins with.
    fn first_settings(&self) -> NodeSettings;

    // How many bytes the item has that begins here, one at least; more than there are where it is not whole.
    fn item_length(&self, bytes: &[u8]) -> usize;

    // The item's line, and the node after it.
    fn step(&self, node: Node, item: u64, bytes: &[u8], out: &mut Out) -> Step;
}

#[derive(Clone, Copy)]
pub struct Bench;

#[derive(Clone, Copy)]
pub struct Trial;

// A record of the bench.
const RECORD: usize = 20;

// No line is longer (`line_fits`).
const LINE: usize = 1088;

// How many bytes are read and written at once at most. The two pieces are arrays with a length beside: no heap.
const PIECE: usize = 65_536;

impl Program for Bench {
    fn first_settings(&self) -> NodeSettings {
        bench_settings()
    }

    fn item_length(&self, _bytes: &[u8]) -> usize {
        RECORD
    }

    fn step(&self, node: Node, item: u64, bytes: &[u8], out: &mut Out) -> Step {
        bench_step(node, item, bytes, out)
    }
}

impl Program for Trial {
    // Before the first block all domains are absent.
    fn first_settings(&self) -> NodeSettings {
        NodeSettings {
            syncs_per_cycle: 1,
            domains: [DomainSettings::absent(); 16],
        }
    }

    fn item_length(&self, bytes: &[u8]) -> usize {
        trial_step::item::item_length(bytes)
    }

    fn step(&self, node: Node, item: u64, bytes: &[u8], out: &mut Out) -> Step {
        trial_step(node, item, bytes, out)
    }
}

#[derive(Drop)]
struct Run {
    node: Node,
    // The number of the next item.
    item: u64,
    // How many bytes are held that make no whole item.
    held: usize,
    goes_on: bool,
}

pub fn run_on_input(rt: &(impl Input + Print + Eprint), program: &impl Program) {
    let mut from = rt.reader();
    let mut input = [0u8; PIECE];
    let mut out = [0u8; PIECE];
    let mut run = Run::new(program);
    // A proved loop has to end, and nothing says that the input does: no run uses these turns up.
    for _ in 0..u64::MAX {
        if !run.goes_on {
            return;
        }
        run.read_on(rt, &mut from, program, &mut input, &mut out);
    }
}

impl Run {
    fn new(program: &impl Program) -> Run {
        let new = Node::new(program.first_settings());
        Run {
            node: new.node,
            item: 1,
            held: 0,
            goes_on: true,
        }
    }

    // Reads once, answers the whole items, and keeps the rest.
    fn read_on(
        &mut self,
        rt: &(impl Print + Eprint),
        from: &mut impl Read,
        program: &impl Program,
        input: &mut [u8],
        out: &mut [u8],
    ) {
        match refill(from, input, self.held) {
            Err(_) => {
                say_unread(rt);
                self.goes_on = false;
            }
            Ok(None) => {
                if self.held > 0 {
                    let mut line = Out { bytes: out, at: 0 };
                    line.put_cut(self.item);
                    let end = line.at;
                    write_out(rt, line.bytes, end);
                }
                self.goes_on = false;
            }
            Ok(Some(held)) => {
                let used = self.take_items(rt, program, &input[..held.min(input.len())], out);
                self.held = keep_rest(input, used, held);
            }
        }
    }

    // Every whole item, in order, as long as the run goes on, and their lines. Answers how many bytes they have.
    fn take_items(
        &mut self,
        rt: &impl Print,
        program: &impl Program,
        input: &[u8],
        out: &mut [u8],
    ) -> usize {
        let mut rest = input;
        let mut lines = Out { bytes: out, at: 0 };
        for _ in 0..input.len() {
            let length = program.item_length(rest);
            if rest.len() < length || !self.goes_on {
                break;
            }
            let (bytes, others) = rest.split_at(length);
            let at = lines.at;
            lines.at = with_room(rt, lines.bytes, at, LINE);
            let step = program.step(self.node, self.item, bytes, &mut lines);
            self.node = step.node;
            self.item = next_item(self.item);
            self.goes_on = step.goes_on;
            rest = others;
        }
        let end = lines.at;
        if !write_out(rt, lines.bytes, end) {
            self.goes_on = false;
        }
        input.len() - rest.len()
    }
}
