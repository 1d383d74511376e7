// A queue of the trial: the mark C7 3A, kind 6, the number n of readings; in bytes 12 and 13 the length of the answer
// buffer, in 14 and 15 the number f of frame bytes; behind 20 bytes n readings of 8 bytes, and f frame bytes as they
// stand.
ghost use Rattle.std.specs.Prelude.{◌≡◌};
ghost use Rattle.text.specs.Fields.{longs_at};
ghost use Rattle.trial_step.specs.Queue.{frame_bytes, given_frames, QueueStepped};

use crate::line::put_queue_line;
use bench_record::step::Step;
use node::Node;
use node_queue::on_queue;
use text::Out;
use text::fields::{byte_at, long_at, pair_at};

// How many frame bytes follow the readings: above 4,096 so many.
pub(crate) fn frame_bytes(bytes: &[u8]) -> usize
    ensures { result ≡ frame_bytes bytes.now }
{
    (pair_at(bytes, 14) as usize).min(4096)
}

// The queue call of an item, with a lent buffer of A5s, and its line.
pub(crate) fn take_queue(node: Node, item: u64, bytes: &[u8], out: &mut Out) -> Step
    ensures { QueueStepped node item bytes.now out.old result out.new }
{
    let count = byte_at(bytes, 3) as usize;
    let readings = readings_of(bytes);
    let mut buffer = [0xA5u8; 512];
    let room = (pair_at(bytes, 12) as usize).min(512);
    let queued = on_queue(
        node,
        &readings[..count],
        frames_of(bytes),
        &mut buffer[..room],
    );
    let answer = queued.answer;
    let after = queued.node;
    put_queue_line(out, item, answer, &buffer[..room]);
    Step {
        node: after,
        goes_on: true,
    }
}

// The frame bytes of an item, as they stand; of a shorter item those that there are.
fn frames_of(bytes: &[u8]) -> &[u8]
    ensures { result.now ≡ given_frames bytes.now }
{
    let count = byte_at(bytes, 3) as usize;
    let start = (20 + 8 * count).min(bytes.len());
    let end = start + frame_bytes(bytes).min(bytes.len() - start);
    &bytes[start..end]
}

// As many as there can be: bytes beyond the item count as 0.
fn readings_of(bytes: &[u8]) -> [u64; 255]
    ensures { result ≡ longs_at 255 bytes.now 20 }
{
    let mut readings = [0u64; 255];
    for i in 0..255 {
        readings[i] = long_at(bytes, 20 + 8 * (i as u16));
    }
    readings
}
