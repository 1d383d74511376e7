// The four check modes (paper 01, "Frames"; names as in documents 002 and 003). The check byte is
// judged over the bytes as received, reserved bits included.
#![tactic(auto)]

ghost use Rattle.std.specs.Prelude.{◌≡◌};
ghost use Rattle.frame_check.specs.Check.{is_taken, takes_plain, takes_secured, is_right};

use frame::{DataIds, FrameType, counter_of, id_at};

#[derive(Clone, Copy)]
pub enum CheckMode {
    Validated,
    NotValidated,
    Ignored,
    Optional,
}

impl CheckMode {
    // Whether a frame is good under the mode: false for bytes that are no frame.
    pub fn takes(self, bytes: &[u8], ids: DataIds) -> bool
        ensures { result ≡ is_taken self ids bytes.now }
    {
        let Some(bytes) = bytes.as_array::<8>() else {
            return false;
        };
        match FrameType::of(bytes[0]) {
            Some(FrameType::PlainSync | FrameType::PlainFup) => self.takes_plain(),
            Some(FrameType::SecuredSync) => self.takes_secured(bytes, ids.sync),
            Some(FrameType::SecuredFup) => self.takes_secured(bytes, ids.fup),
            None => false,
        }
    }

    fn takes_plain(self) -> bool
        ensures { result ≡ takes_plain self }
    {
        !matches!(self, CheckMode::Validated)
    }

    fn takes_secured(self, bytes: &[u8; 8], list: [u8; DataIds::COUNTERS]) -> bool
        ensures { result ≡ takes_secured self (is_right list bytes.now) }
    {
        match self {
            CheckMode::Validated | CheckMode::Optional => right(bytes, list),
            CheckMode::NotValidated => false,
            CheckMode::Ignored => true,
        }
    }
}

fn right(bytes: &[u8; 8], list: [u8; DataIds::COUNTERS]) -> bool
    ensures { result ≡ is_right list bytes.now }
{
    let id = id_at(list, counter_of(bytes[2]));
    bytes[1] == crc8::check(&bytes[2..], id)
}
