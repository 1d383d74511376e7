// The parts of a record that are enums, each in words of its own: what words say, and the words of a case. A code that
// no case has says the first case.
// The codes of role, mode and security are numbers that C writes (include/knottgust.h): no derive gives them.
ghost use Rattle.std.specs.Prelude.{◌≡◌};
ghost use Rattle.record_words.specs.Parts.{
  role_of,
  role_code,
  mode_of,
  mode_code,
  security_of,
  security_code,
  leap_of,
  leap_words,
  flag_code,
  held_of,
  held_words,
  pairing_of,
  pairing_words,
  last_of,
  last_words,
  sending_of,
  sending_words,
};

use crate::pack::packed;
use clock::{GlobalTime, TimeBase, VirtualLocalTime};
use domain::{LastSync, Leap, Pair, Sending};
use frame_check::CheckMode;
use settings::{Role, Security};

pub fn role_of(word: u64) -> Role
    ensures { result ≡ role_of word }
{
    match word / 4_294_967_296 % 256 {
        1 => Role::Slave,
        2 => Role::Master,
        _ => Role::Absent,
    }
}

pub fn role_code(role: Role) -> u8
    ensures { result ≡ role_code role }
{
    match role {
        Role::Absent => 0,
        Role::Slave => 1,
        Role::Master => 2,
    }
}

pub fn mode_of(word: u64) -> CheckMode
    ensures { result ≡ mode_of word }
{
    match word / 1_099_511_627_776 % 256 {
        1 => CheckMode::NotValidated,
        2 => CheckMode::Ignored,
        3 => CheckMode::Optional,
        _ => CheckMode::Validated,
    }
}

pub fn mode_code(mode: CheckMode) -> u8
    ensures { result ≡ mode_code mode }
{
    match mode {
        CheckMode::Validated => 0,
        CheckMode::NotValidated => 1,
        CheckMode::Ignored => 2,
        CheckMode::Optional => 3,
    }
}

pub fn security_of(word: u64) -> Security
    ensures { result ≡ security_of word }
{
    match word / 72_057_594_037_927_936 % 256 {
        1 => Security::Secured,
        _ => Security::Plain,
    }
}

pub fn security_code(security: Security) -> u8
    ensures { result ≡ security_code security }
{
    match security {
        Security::Plain => 0,
        Security::Secured => 1,
    }
}

pub fn flag_code(flag: bool) -> u8
    ensures { result ≡ flag_code flag }
{
    u8::from(flag)
}

// A leap: its code, and its run.
pub fn leap_of(word: u64) -> Option<Leap>
    ensures { result ≡ leap_of word }
{
    match word / 281_474_976_710_656 % 256 {
        1 => Some(Leap::Future((word / 72_057_594_037_927_936 % 256) as u8)),
        2 => Some(Leap::Past((word / 72_057_594_037_927_936 % 256) as u8)),
        _ => None,
    }
}

#[derive(Drop)]
pub struct LeapWords {
    pub code: u8,
    pub run: u8,
}

pub fn leap_words(leap: Option<Leap>) -> LeapWords
    ensures { result ≡ leap_words leap }
{
    match leap {
        None => LeapWords { code: 0, run: 0 },
        Some(Leap::Future(run)) => LeapWords { code: 1, run },
        Some(Leap::Past(run)) => LeapWords { code: 2, run },
    }
}

// A base: its seconds, its reading, and a word with its nanoseconds and code.
pub fn held_of(seconds: u64, at: u64, word: u64) -> Option<TimeBase>
    ensures { result ≡ held_of seconds at word }
{
    match word / 4_294_967_296 % 256 {
        1 => Some(TimeBase {
            time: GlobalTime(seconds, (word % 4_294_967_296) as u32),
            at: VirtualLocalTime(at),
        }),
        _ => None,
    }
}

#[derive(Drop)]
pub struct HeldWords {
    pub seconds: u64,
    pub at: u64,
    pub nanoseconds: u32,
    pub code: u8,
}

pub fn held_words(held: Option<TimeBase>) -> HeldWords
    ensures { result ≡ held_words held }
{
    match held {
        None => HeldWords {
            seconds: 0,
            at: 0,
            nanoseconds: 0,
            code: 0,
        },
        Some(base) => {
            let time = base.time;
            let at = base.at;
            HeldWords {
                seconds: time.0,
                at: at.0,
                nanoseconds: time.1,
                code: 1,
            }
        }
    }
}

// A pair: its reading, and a word with the rest.
pub fn pairing_of(at: u64, word: u64) -> Option<Pair>
    ensures { result ≡ pairing_of at word }
{
    match word / 72_057_594_037_927_936 % 256 {
        1 => Some(Pair {
            at: VirtualLocalTime(at),
            seconds: (word % 4_294_967_296) as u32,
            counter: (word / 4_294_967_296 % 256) as u8,
            user0: (word / 1_099_511_627_776 % 256) as u8,
            user1: (word / 281_474_976_710_656 % 256) as u8,
        }),
        _ => None,
    }
}

// A reading, and a word beside it.
#[derive(Drop)]
pub struct AtWord {
    pub at: u64,
    pub word: u64,
}

pub fn pairing_words(pairing: Option<Pair>) -> AtWord
    ensures { result ≡ pairing_words pairing }
{
    match pairing {
        None => AtWord { at: 0, word: 0 },
        Some(pair) => {
            let at = pair.at;
            AtWord {
                at: at.0,
                word: packed(pair.seconds, pair.counter, pair.user0, pair.user1, 1),
            }
        }
    }
}

// The SYNC taken last: its reading, and a word with its counter, its row and its code.
pub fn last_of(at: u64, word: u64) -> LastSync
    ensures { result ≡ last_of at word }
{
    match word / 281_474_976_710_656 % 256 {
        1 => LastSync::Seen {
            counter: (word / 4_294_967_296 % 256) as u8,
            row: (word / 1_099_511_627_776 % 256) as u8,
            at: VirtualLocalTime(at),
        },
        _ => LastSync::Unknown,
    }
}

pub fn last_words(last: LastSync) -> AtWord
    ensures { result ≡ last_words last }
{
    match last {
        LastSync::Unknown => AtWord { at: 0, word: 0 },
        LastSync::Seen { counter, row, at } => AtWord {
            at: at.0,
            word: packed(0, counter, row, 1, 0),
        },
    }
}

// The SYNC sent last: its reading, a word with its seconds, counter and code, its nanoseconds.
pub fn sending_of(at: u64, word: u64, nanoseconds: u64) -> Sending
    ensures { result ≡ sending_of at word nanoseconds }
{
    match word / 1_099_511_627_776 % 256 {
        1 => Sending::Open {
            counter: (word / 4_294_967_296 % 256) as u8,
            seconds: (word % 4_294_967_296) as u32,
            nanoseconds: (nanoseconds % 4_294_967_296) as u32,
            at: VirtualLocalTime(at),
        },
        2 => Sending::Confirmed(VirtualLocalTime(at)),
        _ => Sending::Never,
    }
}

#[derive(Drop)]
pub struct SendingWords {
    pub at: u64,
    pub seconds: u32,
    pub nanoseconds: u32,
    pub counter: u8,
    pub code: u8,
}

pub fn sending_words(sending: Sending) -> SendingWords
    ensures { result ≡ sending_words sending }
{
    match sending {
        Sending::Never => SendingWords {
            at: 0,
            seconds: 0,
            nanoseconds: 0,
            counter: 0,
            code: 0,
        },
        Sending::Open {
            counter,
            seconds,
            nanoseconds,
            at,
        } => SendingWords {
            at: at.0,
            seconds,
            nanoseconds,
            counter,
            code: 1,
        },
        Sending::Confirmed(at) => SendingWords {
            at: at.0,
            seconds: 0,
            nanoseconds: 0,
            counter: 0,
            code: 2,
        },
    }
}
