// A receive queue to a node in words (paper 02, request 4): its frames one after another where the words stand.
ghost use Rattle.std.specs.Prelude.{◌≡◌};
ghost use Rattle.words_frame.specs.Queue.{QueuedIn};

use crate::frames::take_in;
use node_queue::judge;
use node_words::NODE_WORDS;
use refusal::Numbered;

// Frames of eight bytes one after another, each at its reading; the number of each goes to its place in `answers`: 12,
// 2. Bytes beyond them stay.
pub fn queue_in(
    node: &mut [u64; NODE_WORDS],
    readings: &[u64],
    frames: &[u8],
    answers: &mut [u8],
) -> u8
    ensures { QueuedIn node.old readings.now frames.now answers.old result
        node.new answers.new }
{
    if let Err(refusal) = judge(readings.len(), frames.len(), answers.len()) {
        return refusal.number();
    }
    for (i, t) in readings.iter().enumerate() {
        let answer = take_in(node, *t, &frames[8 * i..8 * i + 8]);
        answers[i] = answer.number();
    }
    0
}
