// Bytes to values (paper 01, "Frames"). Reserved bits are ignored, and the check byte is not looked at.
// Bytes of every length are taken; what cannot be read is answered.
#![tactic(auto)]

ghost use Rattle.std.specs.Prelude.{◌≡◌};
ghost use Rattle.frame_read.specs.Read.{
  read_of,
  refusal_of,
  named_domain,
  sync_in,
  fup_in,
  word_of,
};

use frame::{Frame, FrameType, Fup, Protection, Sync, counter_of, domain_of};
use refusal::Refusal;

// Why bytes are no frame.
#[derive(Clone, Copy)]
pub enum NoFrame {
    LengthNot8,
    NoSuchType,
}

impl From<NoFrame> for Refusal {
    ghost from_gives = { λ why refusal. refusal ≡ refusal_of why };

    fn from(why: NoFrame) -> Refusal {
        match why {
            NoFrame::LengthNot8 => Refusal::Length,
            NoFrame::NoSuchType => Refusal::FrameType,
        }
    }
}

// The values that the bytes carry.
pub fn read_frame(bytes: &[u8]) -> Result<Frame, NoFrame>
    ensures { result ≡ read_of bytes.now }
{
    let bytes = bytes.as_array::<8>().ok_or(NoFrame::LengthNot8)?;
    let user = Protection::Plain(bytes[1]);
    match FrameType::of(bytes[0]).ok_or(NoFrame::NoSuchType)? {
        FrameType::PlainSync => Ok(Frame::Sync(sync(bytes, user))),
        FrameType::SecuredSync => Ok(Frame::Sync(sync(bytes, Protection::Secured))),
        FrameType::PlainFup => Ok(Frame::Fup(fup(bytes, user))),
        FrameType::SecuredFup => Ok(Frame::Fup(fup(bytes, Protection::Secured))),
    }
}

// The domain that the bytes name: 0 where there is no byte 2.
pub fn named_domain(bytes: &[u8]) -> u8
    ensures { result ≡ named_domain bytes.now }
{
    bytes.get(2).map_or(0, |two| domain_of(*two))
}

fn sync(bytes: &[u8; 8], protection: Protection) -> Sync
    ensures { result ≡ sync_in bytes.now protection }
{
    Sync {
        domain: named_domain(bytes),
        counter: counter_of(bytes[2]),
        user0: bytes[3],
        seconds: word(bytes),
        protection,
    }
}

fn fup(bytes: &[u8; 8], protection: Protection) -> Fup
    ensures { result ≡ fup_in bytes.now protection }
{
    Fup {
        domain: named_domain(bytes),
        counter: counter_of(bytes[2]),
        sgw: bytes[3] / 4 % 2 == 1,
        ovs: bytes[3] % 4,
        nanoseconds: word(bytes),
        protection,
    }
}

// Bytes 4 to 7 as one number, big-endian.
fn word(bytes: &[u8; 8]) -> u32
    ensures { result ≡ word_of bytes.now }
{
    u32::from_be_bytes([bytes[4], bytes[5], bytes[6], bytes[7]])
}
