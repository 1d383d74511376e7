// A record of 20 bytes (paper 01, "Bench program"): the mark C7 3A, a kind, a domain, the reading and a
// payload of 8 bytes. What a kind does not use may be anything.
#![tactic(auto)]

pub mod line;
pub mod step;

ghost use Rattle.std.specs.Prelude.{◌≡◌};
ghost use Rattle.bench_record.specs.Record.{asked_by, request_of, payload_of};

use clock::VirtualLocalTime;
use node_call::Request;
use text::fields::{byte_at, long_at, word_at};

// The call that a record asks for: none by a wrong mark or kind.
pub fn asked_by(bytes: &[u8]) -> Option<Request>
    ensures { result ≡ asked_by bytes.now }
{
    if byte_at(bytes, 0) != 0xC7 {
        return None;
    }
    if byte_at(bytes, 1) != 0x3A {
        return None;
    }
    request(bytes)
}

// By the kind.
fn request(bytes: &[u8]) -> Option<Request>
    ensures { result ≡ request_of bytes.now }
{
    let domain = byte_at(bytes, 3);
    let t = VirtualLocalTime(long_at(bytes, 4));
    match byte_at(bytes, 2) {
        1 => Some(Request::Frame(t)),
        2 => Some(Request::Read(domain, t)),
        3 => Some(Request::Set(domain, t, word_at(bytes, 12), word_at(bytes, 16))),
        4 => Some(Request::Cycle(t)),
        5 => Some(Request::Confirm(domain, t, byte_at(bytes, 12))),
        _ => None,
    }
}

// The payload; of a shorter record the bytes that it lacks count as 0.
pub fn payload(bytes: &[u8]) -> [u8; 8]
    ensures { result ≡ payload_of bytes.now }
{
    [
        byte_at(bytes, 12),
        byte_at(bytes, 13),
        byte_at(bytes, 14),
        byte_at(bytes, 15),
        byte_at(bytes, 16),
        byte_at(bytes, 17),
        byte_at(bytes, 18),
        byte_at(bytes, 19),
    ]
}
