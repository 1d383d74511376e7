// The leap bits after an update (paper 01, "A slave's domain", and paper 02, request 3).
ghost use Rattle.std.specs.Prelude.{◌+◌, ◌≡◌, ltb};
ghost use Rattle.slave_update.specs.Leap.{is_future, is_past, calmer, leap_after};

use domain::Leap;

// The leap after an update by D: the one that D is, against the two thresholds, with a run of 0; or what is left of the
// one held. A threshold of 0 is not checked.
pub fn leap_after(future: u64, past: u64, count: u8, held: Option<Leap>, d: i64) -> Option<Leap>
    ensures { result ≡ leap_after future past count held d }
{
    if is_future(future, d) {
        return Some(Leap::Future(0));
    }
    if is_past(past, d) {
        return Some(Leap::Past(0));
    }
    calmer(count, held)
}

// The leap held, after one more update within both thresholds: off at the count-th in a row.
fn calmer(count: u8, held: Option<Leap>) -> Option<Leap>
    ensures { result ≡ calmer count held }
{
    match held? {
        Leap::Future(run) if goes_on(count, run) => Some(Leap::Future(run + 1)),
        Leap::Past(run) if goes_on(count, run) => Some(Leap::Past(run + 1)),
        _ => None,
    }
}

// Whether the bit shows after one more.
fn goes_on(count: u8, run: u8) -> bool
    ensures { result ≡ ltb (run + 1) count }
{
    (run as u16) + 1 < count as u16
}

// Of the two leaps each is a line: one of both with `exceeds` as a parameter is no plainer.
fn is_future(threshold: u64, d: i64) -> bool
    ensures { result ≡ is_future threshold d }
{
    threshold != 0 && clock::exceeds(d, threshold)
}

fn is_past(threshold: u64, d: i64) -> bool
    ensures { result ≡ is_past threshold d }
{
    threshold != 0 && clock::minus_exceeds(d, threshold)
}
