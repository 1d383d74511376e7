// Numbers in a line of the sheet (paper 02, request 13), a blank before each.
ghost use Rattle.text.specs.Text.{Wrote};
ghost use Rattle.sheet_line.specs.Signed.{plain_text, minus_text, signed_text, told_text};

use clock::magnitude;
use sheet_sum::Told;
use text::Out;

// One without a sign.
pub fn put_plain(out: &mut Out, n: u64)
    ensures { Wrote (plain_text n) out.old out.new }
{
    out.put_byte(b' ');
    out.put_decimal(n);
}

// D.
pub fn put_signed(out: &mut Out, d: i64)
    ensures { Wrote (signed_text d) out.old out.new }
{
    if d < 0 {
        put_minus(out, magnitude(d));
    } else {
        put_plain(out, magnitude(d));
    }
}

// A sum; `None` is one outside signed 64 bits.
pub fn put_told(out: &mut Out, told: Option<Told>)
    ensures { Wrote (told_text told) out.old out.new }
{
    match told {
        Some(Told::Plus(m)) => put_plain(out, m),
        Some(Told::Minus(m)) => put_minus(out, m),
        None => out.put_bytes(b" over"),
    }
}

fn put_minus(out: &mut Out, m: u64)
    ensures { Wrote (minus_text m) out.old out.new }
{
    out.put_bytes(b" -");
    out.put_decimal(m);
}
