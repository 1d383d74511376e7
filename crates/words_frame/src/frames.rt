// A frame to a node in words.
ghost use Rattle.std.specs.Prelude.{◌≡◌, ◌∷◌, []};
ghost use Rattle.words_frame.specs.Frame.{is_stored, TakenIn, FramedIn, told};

use call_frame::frame_call;
use clock::VirtualLocalTime;
use frame_read::named_domain;
use node_words::{NODE_WORDS, put_frame, record_in};
use refusal::{Numbered, Outcome};
use slave_answer::Taken;

// A frame of any length at t: 1, 2, 3, 4, 5; then 6, 15, or 7, 8, 9. `taken` tells what was taken, and D.
pub fn frame_in(node: &mut [u64; NODE_WORDS], t: u64, bytes: &[u8], taken: &mut [i64; 2]) -> u8
    ensures { FramedIn node.old t bytes.now taken.old result node.new
        taken.new }
{
    let answer = take_in(node, t, bytes);
    tell(answer, taken);
    answer.number()
}

// The call of the record that the frame names.
pub(crate) fn take_in(node: &mut [u64; NODE_WORDS], t: u64, bytes: &[u8]) -> Outcome<Taken>
    ensures { TakenIn node.old t bytes.now result node.new }
{
    let at = named_domain(bytes);
    let kept = VirtualLocalTime(node[0]);
    let record = record_in(node, at);
    let call = frame_call(record, kept, VirtualLocalTime(t), bytes);
    let answer = call.answer;
    if is_stored(answer.number()) {
        let then = call.kept;
        let after = call.domain;
        node[0] = then.0;
        put_frame(node, at, after);
    }
    answer
}

// Whether a frame's number leaves something in the record.
fn is_stored(number: u8) -> bool
    ensures { result ≡ is_stored number }
{
    matches!(number, 0 | 6 | 15)
}

// 1 a SYNC, 2 the first time, 3 an update, with its D.
fn tell(answer: Outcome<Taken>, taken: &mut [i64; 2])
    ensures { taken.new ≡ told answer taken.old }
{
    match answer {
        Ok(Taken::Opened) => put_two(taken, 1, 0),
        Ok(Taken::First) => put_two(taken, 2, 0),
        Ok(Taken::Updated(d)) => put_two(taken, 3, d),
        Err(_) => {}
    }
}

fn put_two(taken: &mut [i64; 2], what: i64, d: i64)
    ensures { taken.new ≡ what ∷ d ∷ [] }
{
    *taken = [what, d];
}
