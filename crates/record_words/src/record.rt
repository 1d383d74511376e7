// A record in words: eleven with its settings and its number, eleven with its state.
ghost use Rattle.std.specs.Prelude.{◌≡◌};
ghost use Rattle.record_words.specs.Record.{
  settings_of,
  number_of,
  domain_of,
  settings_words,
  kinds_of,
  sent_of,
  state_words,
};

use crate::pack::{first_word, half, last_word, packed, sixteen_of};
use crate::parts::{
    flag_code, held_of, held_words, last_of, last_words, leap_of, leap_words, mode_code, mode_of,
    pairing_of, pairing_words, role_code, role_of, security_code, security_of, sending_of,
    sending_words,
};
use crate::{SETTINGS_WORDS, STATE_WORDS};
use domain::Domain;
use frame::DataIds;
use settings::{DomainSettings, UserBytes};

pub fn settings_of(words: [u64; SETTINGS_WORDS]) -> DomainSettings
    ensures { result ≡ settings_of words }
{
    let kinds = words[5];
    let sent = words[6];
    let sync = sixteen_of(words[7], words[8]);
    let fup = sixteen_of(words[9], words[10]);
    let role = role_of(kinds);
    let mode = mode_of(kinds);
    let security = security_of(sent);
    DomainSettings {
        follow_up_time: words[0],
        loss_time: words[1],
        future_threshold: words[2],
        past_threshold: words[3],
        period: words[4],
        confirmation_time: (kinds % 4_294_967_296) as u32,
        ids: DataIds { sync, fup },
        role,
        mode,
        jump_width: (kinds / 281_474_976_710_656 % 256) as u8,
        hysteresis: (sent % 256) as u8,
        clear_count: (sent / 256 % 256) as u8,
        security,
        user: UserBytes(
            (sent / 4_294_967_296 % 256) as u8,
            (sent / 1_099_511_627_776 % 256) as u8,
            (sent / 281_474_976_710_656 % 256) as u8,
        ),
    }
}

// The number of the domain, which stands beside them.
pub fn number_of(words: [u64; SETTINGS_WORDS]) -> u8
    ensures { result ≡ number_of words }
{
    (words[5] / 72_057_594_037_927_936 % 256) as u8
}

pub fn domain_of(settings: DomainSettings, number: u8, words: [u64; STATE_WORDS]) -> Domain
    ensures { result ≡ domain_of settings number words }
{
    let kinds = words[6];
    let stored = words[7];
    let sent = words[9];
    let pairing = pairing_of(words[0], words[1]);
    let last = last_of(words[2], words[3]);
    let base = held_of(words[4], words[5], kinds);
    let leap = leap_of(kinds);
    let sending = sending_of(words[8], sent, words[10]);
    Domain {
        settings,
        base,
        pairing,
        last,
        sending,
        number,
        user: UserBytes(
            (stored / 4_294_967_296 % 256) as u8,
            (stored / 1_099_511_627_776 % 256) as u8,
            (stored / 281_474_976_710_656 % 256) as u8,
        ),
        sgw: stored / 72_057_594_037_927_936 % 256 == 1,
        leap,
        updates: (kinds / 1_099_511_627_776 % 256) as u8,
        next_counter: (sent / 281_474_976_710_656 % 256) as u8,
    }
}

// Settings and a number in words.
pub fn settings_words(settings: DomainSettings, number: u8) -> [u64; SETTINGS_WORDS]
    ensures { result ≡ settings_words settings number }
{
    let ids = settings.ids;
    let sync = ids.sync;
    let fup = ids.fup;
    [
        settings.follow_up_time,
        settings.loss_time,
        settings.future_threshold,
        settings.past_threshold,
        settings.period,
        kinds_word(settings, number),
        sent_word(settings),
        first_word(sync),
        last_word(sync),
        first_word(fup),
        last_word(fup),
    ]
}

fn kinds_word(settings: DomainSettings, number: u8) -> u64
    ensures { result ≡ kinds_of settings number }
{
    let role = settings.role;
    let mode = settings.mode;
    packed(
        settings.confirmation_time,
        role_code(role),
        mode_code(mode),
        settings.jump_width,
        number,
    )
}

fn sent_word(settings: DomainSettings) -> u64
    ensures { result ≡ sent_of settings }
{
    let user = settings.user;
    let security = settings.security;
    packed(
        half(settings.hysteresis, settings.clear_count, 0, 0),
        user.0,
        user.1,
        user.2,
        security_code(security),
    )
}

// Its state in words.
pub fn state_words(domain: Domain) -> [u64; STATE_WORDS]
    ensures { result ≡ state_words domain }
{
    let held = domain.base;
    let pairing = domain.pairing;
    let last = domain.last;
    let sending = domain.sending;
    let leap = domain.leap;
    let user = domain.user;
    let pair = pairing_words(pairing);
    let seen = last_words(last);
    let base = held_words(held);
    let leaps = leap_words(leap);
    let sent = sending_words(sending);
    let kinds = packed(
        base.nanoseconds,
        base.code,
        domain.updates,
        leaps.code,
        leaps.run,
    );
    let stored = packed(0, user.0, user.1, user.2, flag_code(domain.sgw));
    let sync = packed(
        sent.seconds,
        sent.counter,
        sent.code,
        domain.next_counter,
        0,
    );
    [
        pair.at,
        pair.word,
        seen.at,
        seen.word,
        base.seconds,
        base.at,
        kinds,
        stored,
        sent.at,
        sync,
        sent.nanoseconds as u64,
    ]
}
