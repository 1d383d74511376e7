// The bench's line of an answer (paper 01, "Bench program"). A refusal is its number and nothing more.
ghost use Rattle.text.specs.Text.{Wrote};
ghost use Rattle.bench_step.specs.BenchLine.{
  bench_read,
  bench_cycle,
  bench_confirm,
  bench_values,
  bench_line,
};

use bench_record::line::put_shown;
use call_read::Shown;
use frame::Fup;
use node_call::CallAnswer;
use refusal::Outcome;
use text::Out;

// `sent` is what the call wrote: the frame of a main cycle that sent one, or of a confirmation.
pub fn put_bench_line(out: &mut Out, item: u64, answer: CallAnswer, sent: &[u8])
    ensures { Wrote (bench_line item answer sent.now) out.old out.new }
{
    out.put_answer(item, answer.number());
    put_values(out, answer, sent);
    out.put_byte(b'\n');
}

// What a success adds.
#[tactic(auto, using(text::proofs::Wrote::nothing))]
fn put_values(out: &mut Out, answer: CallAnswer, sent: &[u8])
    ensures { Wrote (bench_values answer sent.now) out.old out.new }
{
    match answer {
        CallAnswer::Frame(_) => {}
        CallAnswer::Read(read) => put_read(out, read),
        CallAnswer::Set(_) => {}
        CallAnswer::Cycle(cycle) => put_cycle(out, cycle, sent),
        CallAnswer::Confirm(confirm) => put_confirm(out, confirm, sent),
    }
}

// The time and the status.
#[tactic(auto, using(text::proofs::Wrote::nothing))]
fn put_read(out: &mut Out, read: Outcome<Shown>)
    ensures { Wrote (bench_read read) out.old out.new }
{
    match read {
        Err(_) => {}
        Ok(shown) => put_shown(out, shown),
    }
}

// The frame count and the frame.
fn put_cycle(out: &mut Out, cycle: Outcome<usize>, sent: &[u8])
    ensures { Wrote (bench_cycle cycle sent.now) out.old out.new }
{
    match cycle {
        Err(_) => {}
        Ok(count) => {
            out.put_byte(b' ');
            out.put_decimal(count as u64);
            if count == 0 {
                return;
            }
            out.put_byte(b' ');
            out.put_hex(sent);
        }
    }
}

// The frame.
fn put_confirm(out: &mut Out, confirm: Outcome<Fup>, sent: &[u8])
    ensures { Wrote (bench_confirm confirm sent.now) out.old out.new }
{
    match confirm {
        Err(_) => {}
        Ok(_) => {
            out.put_byte(b' ');
            out.put_hex(sent);
        }
    }
}
