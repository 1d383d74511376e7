// Standard input and output in large pieces: a read takes what is there, and lines go out together.
ghost use Rattle.std.specs.Prelude.{◌≡◌, length};
ghost use Rattle.text.specs.Pieces.{KeptRest, place_for, next_item};

use std::io;
use std::io::Read;

// Reads once into the buffer, after the bytes it holds: how many it holds then, or none where no more will come.
pub fn refill(from: &mut impl Read, input: &mut [u8], held: usize) -> io::Result<Option<usize>> {
    if input.len() < held {
        return Ok(None);
    }
    match from.read(&mut input[held..])? {
        0 => Ok(None),
        got => Ok(Some(held + got)),
    }
}

// The bytes from `used` to `held` go to the start of the buffer. Answers how many they are.
pub fn keep_rest(input: &mut [u8], used: usize, held: usize) -> usize
    ensures { KeptRest used held input.old result input.new }
{
    let end = held.min(input.len());
    if used < end {
        input.copy_within(used..end, 0);
    }
    end.saturating_sub(used)
}

// The first `length` bytes, all of them where there are fewer. False where they cannot be written.
pub fn write_out(rt: &impl Print, out: &[u8], length: usize) -> bool {
    rt.write_all(&out[..length.min(out.len())]).is_ok()
}

// The place for a line of at most `line` bytes: what stands in the buffer is written first where there is no
// room for it.
pub fn with_room(rt: &impl Print, out: &[u8], at: usize, line: usize) -> usize
    ensures { result ≡ place_for at line (length out.now) }
{
    if out.len() < at || out.len() - at < line {
        write_out(rt, out, at);
        0
    } else {
        at
    }
}

// The number of the item after this one.
pub fn next_item(item: u64) -> u64
    ensures { result ≡ next_item item }
{
    item.saturating_add(1)
}

// Says on the error output that reading failed.
pub fn say_unread(rt: &impl Eprint) {
    let _ = rt.eprintln("standard input cannot be read");
}
