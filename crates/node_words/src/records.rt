// A record out of the words.
ghost use Rattle.std.specs.Prelude.{◌+◌, ◌*◌, ◌%◌, ◌<◌, ◌≡◌, length};
ghost use Rattle.settings.specs.Node.{places};
ghost use Rattle.node_words.specs.Words.{record_of};

use crate::{HEAD_WORDS, NODE_WORDS, RECORD_WORDS};
use domain::Domain;
use record_words::{SETTINGS_WORDS, STATE_WORDS, domain_of, number_of, settings_of};
use settings::NodeSettings;

// The record of a domain: the one at its number, modulo 16.
pub fn record_in(node: &[u64; NODE_WORDS], domain: u8) -> Domain
    ensures { result ≡ record_of node.now (domain % places) }
{
    record_at(node, (domain as usize) % NodeSettings::DOMAINS)
}

// The record at a place.
fn record_at(node: &[u64; NODE_WORDS], at: usize) -> Domain
    requires { at < places }
    ensures { result ≡ record_of node.now at }
{
    let from = HEAD_WORDS + RECORD_WORDS * at;
    let state = from + SETTINGS_WORDS;
    let given = eleven(&node[from..state]);
    domain_of(
        settings_of(given),
        number_of(given),
        eleven(&node[state..state + STATE_WORDS]),
    )
}

// Eleven words by value, one by one. Tried: copy_from_slice, first_chunk: 2,016 bytes more code in the calls for C.
fn eleven(words: &[u64]) -> [u64; STATE_WORDS]
    requires { length words.now ≡ 11 }
    ensures { result ≡ words.now }
{
    [
        words[0], words[1], words[2], words[3], words[4], words[5], words[6], words[7], words[8],
        words[9], words[10],
    ]
}
