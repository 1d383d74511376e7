// What the lines of the bench and of the trial say alike of a read (paper 01, "Bench program").
ghost use Rattle.text.specs.Text.{Wrote};
ghost use Rattle.bench_record.specs.Line.{shown_text};

use call_read::Shown;
use text::Out;

// The time and the status.
pub fn put_shown(out: &mut Out, shown: Shown)
    ensures { Wrote (shown_text shown) out.old out.new }
{
    let time = shown.time;
    out.put_byte(b' ');
    out.put_time(time);
    out.put_byte(b' ');
    out.put_hex_byte(shown.status);
}
