// The calls of a node for C: include/knottgust.h declares them, and docs/BOARD.md says what they cost. The product
// lends the node as words; each call is the one of its name on them, and promises the same. An archive for this
// machine, and an object for a controller, are made of this crate.
#![tactic(auto)]

ghost use Rattle.words_new.specs.New.{NewIn};
ghost use Rattle.words_frame.specs.Frame.{FramedIn};
ghost use Rattle.words_frame.specs.Queue.{QueuedIn};
ghost use Rattle.words_call.specs.Calls.{ReadIn, SetIn, ConfirmedBy};
ghost use Rattle.words_cycle.specs.Cycle.{CycledBy};

use node_words::NODE_WORDS;
use words_call::{SHOWN_WORDS, confirm_in, read_in, set_in};
use words_cycle::cycle_in;
use words_frame::{frame_in, queue_in};
use words_new::{GIVEN_WORDS, new_in};

// A fresh node; or 14, and one with all domains absent and S 1.
#[unsafe(no_mangle)]
pub extern "C" fn kg_new(node: &mut [u64; NODE_WORDS], given: &[u64; GIVEN_WORDS]) -> u8
    ensures { NewIn given.now result node.new }
{
    new_in(node, given)
}

// A frame of any length at t: 1, 2, 3, 4, 5; then 6, 15, or 7, 8, 9.
#[unsafe(no_mangle)]
pub extern "C" fn kg_frame(
    node: &mut [u64; NODE_WORDS],
    t: u64,
    bytes: &[u8],
    taken: &mut [i64; 2],
) -> u8
    ensures { FramedIn node.old t bytes.now taken.old result node.new
        taken.new }
{
    frame_in(node, t, bytes, taken)
}

// A receive queue: 12, 2; then a number for each frame.
#[unsafe(no_mangle)]
pub extern "C" fn kg_queue(
    node: &mut [u64; NODE_WORDS],
    readings: &[u64],
    frames: &[u8],
    answers: &mut [u8],
) -> u8
    ensures { QueuedIn node.old readings.now frames.now answers.old result
        node.new answers.new }
{
    queue_in(node, readings, frames, answers)
}

// Time, status, user bytes and update counter of a domain at t: 1, 4, 10.
#[unsafe(no_mangle)]
pub extern "C" fn kg_read(
    node: &[u64; NODE_WORDS],
    domain: u8,
    t: u64,
    shown: &mut [u64; SHOWN_WORDS],
) -> u8
    ensures { ReadIn node.now domain t shown.old result shown.new }
{
    read_in(node, domain, t, shown)
}

// The base of a domain holds the given time at t: 1, 4, 9.
#[unsafe(no_mangle)]
pub extern "C" fn kg_set(
    node: &mut [u64; NODE_WORDS],
    domain: u8,
    t: u64,
    seconds: u32,
    nanoseconds: u32,
) -> u8
    ensures { SetIn node.old domain t seconds nanoseconds result node.new }
{
    set_in(node, domain, t, seconds, nanoseconds)
}

// The first S due domains send: 1, 12.
#[unsafe(no_mangle)]
pub extern "C" fn kg_main_cycle(
    node: &mut [u64; NODE_WORDS],
    t: u64,
    out: &mut [u8],
    sent: &mut [u8; 1],
) -> u8
    ensures { CycledBy node.old t out.old sent.old result node.new
        out.new sent.new }
{
    cycle_in(node, t, out, sent)
}

// The FUP of a domain's open SYNC: 1, 4, 11, 12.
#[unsafe(no_mangle)]
pub extern "C" fn kg_confirmation(
    node: &mut [u64; NODE_WORDS],
    domain: u8,
    t: u64,
    counter: u8,
    out: &mut [u8],
) -> u8
    ensures { ConfirmedBy node.old domain t counter out.old result node.new
        out.new }
{
    confirm_in(node, domain, t, counter, out)
}
