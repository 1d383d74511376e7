// The trial's line of an answer. A lent buffer is shown whole, also where the call is refused.
ghost use Rattle.std.specs.Prelude.{◌≡◌, ◌++◌};
ghost use Rattle.text.specs.Text.{Wrote};
ghost use Rattle.text.specs.Lines.{newline, answer_text};
ghost use Rattle.node.specs.CycleAnswer.{cycle_count};
ghost use Rattle.trial_step.specs.TrialLine.{
  trial_read,
  buffer_text,
  trial_values,
  trial_line,
  queue_line,
};

use bench_record::line::put_shown;
use call_read::Shown;
use node_call::CallAnswer;
use refusal::{Numbered, Outcome};
use text::Out;

// `buffer` is the lent buffer after the call.
pub fn put_trial_line(out: &mut Out, item: u64, answer: CallAnswer, buffer: &[u8])
    ensures { Wrote (trial_line item answer buffer.now) out.old out.new }
{
    out.put_answer(item, answer.number());
    put_values(out, answer, buffer);
    out.put_byte(b'\n');
}

// A queue's line; `buffer` is the answer buffer after the call.
pub fn put_queue_line(out: &mut Out, item: u64, queued: Outcome<()>, buffer: &[u8])
    ensures { Wrote (queue_line item queued buffer.now) out.old out.new }
{
    out.put_answer(item, queued.number());
    put_buffer(out, buffer);
    out.put_byte(b'\n');
}

// A line that has the number alone.
pub(crate) fn put_number(out: &mut Out, item: u64, number: u8)
    ensures { Wrote (answer_text item number ++ newline) out.old out.new }
{
    out.put_answer(item, number);
    out.put_byte(b'\n');
}

// What comes after the number.
fn put_values(out: &mut Out, answer: CallAnswer, buffer: &[u8])
    ensures { Wrote (trial_values answer buffer.now) out.old out.new }
{
    match answer {
        CallAnswer::Frame(_) => {}
        CallAnswer::Read(read) => put_read(out, read),
        CallAnswer::Set(_) => {}
        CallAnswer::Cycle(cycle) => {
            out.put_byte(b' ');
            out.put_decimal(count_of(cycle));
            put_buffer(out, buffer);
        }
        CallAnswer::Confirm(_) => put_buffer(out, buffer),
    }
}

// The time, the status, the user bytes and the update counter.
fn put_read(out: &mut Out, read: Outcome<Shown>)
    ensures { Wrote (trial_read read) out.old out.new }
{
    match read {
        Err(_) => {}
        Ok(shown) => {
            let user = shown.user;
            put_shown(out, shown);
            out.put_byte(b' ');
            out.put_hex(&[user.0, user.1, user.2]);
            out.put_byte(b' ');
            out.put_decimal(shown.updates as u64);
        }
    }
}

// A refused main cycle sent none.
fn count_of(cycle: Outcome<usize>) -> u64
    ensures { result ≡ cycle_count cycle }
{
    match cycle {
        Ok(count) => count as u64,
        Err(_) => 0,
    }
}

// An empty buffer is a dash.
fn put_buffer(out: &mut Out, buffer: &[u8])
    ensures { Wrote (buffer_text buffer.now) out.old out.new }
{
    out.put_byte(b' ');
    if buffer.len() == 0 {
        out.put_byte(b'-');
        return;
    }
    out.put_hex(buffer);
}
