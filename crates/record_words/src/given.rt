// Settings that a product gives in words, as `settings_of` reads them; where a code that is read is none, they are ones
// that no node takes.
ghost use Rattle.std.specs.Prelude.{◌≡◌};
ghost use Rattle.record_words.specs.Given.{is_coded, given_of};

use crate::SETTINGS_WORDS;
use crate::record::settings_of;
use settings::DomainSettings;

pub fn given_of(words: [u64; SETTINGS_WORDS]) -> DomainSettings
    ensures { result ≡ given_of words }
{
    if is_coded(words[5], words[6]) {
        settings_of(words)
    } else {
        DomainSettings::no_settings()
    }
}

// Whether the role's code is one, and the code that the role has read: a slave's mode, a master's security.
fn is_coded(kinds: u64, sent: u64) -> bool
    ensures { result ≡ is_coded kinds sent }
{
    match kinds / 4_294_967_296 % 256 {
        0 => true,
        1 => kinds / 1_099_511_627_776 % 256 <= 3,
        2 => sent / 72_057_594_037_927_936 % 256 <= 1,
        _ => false,
    }
}
