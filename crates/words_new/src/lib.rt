// A fresh node in words that a product lends, of settings that it gives in words (paper 01, "Settings of a node"): S in
// the first of them, then eleven for each domain as a record holds them. The words of the node are written in every
// case: under 14 those of a node with all domains absent and S 1.
#![tactic(auto)]

ghost use Rattle.std.specs.Prelude.{◌<◌, ◌≡◌, ◌++◌, length, take, replicate};
ghost use Rattle.settings.specs.Domain.{held_of};
ghost use Rattle.settings.specs.Ranges.{within};
ghost use Rattle.settings.specs.Node.{places, all_good};
ghost use Rattle.record_words.specs.Record.{settings_words};
ghost use Rattle.node_words.specs.Node.{records_words, node_words};
ghost use Rattle.words_new.specs.New.{given_at, node_given, NewIn};
ghost use Rattle.words_new.specs.Made.{is_taken, made_syncs, made_at, made_node};

use node_words::{HEAD_WORDS, NODE_WORDS, RECORD_WORDS};
use record_words::{SETTINGS_WORDS, STATE_WORDS, given_of, packed, settings_words};
use refusal::Refusal;
use settings::{DomainSettings, NodeSettings, is_good};

// The words of a node's settings.
pub const GIVEN_WORDS: usize = 1 + NodeSettings::DOMAINS * SETTINGS_WORDS;

// 0, and a fresh node of the settings; or 14, and one with all domains absent and S 1.
pub fn new_in(node: &mut [u64; NODE_WORDS], given: &[u64; GIVEN_WORDS]) -> u8
    ensures { NewIn given.now result node.new }
{
    let taken = is_taken(given);
    put_node(node, given, taken);
    if taken { 0 } else { Refusal::Settings.number() }
}

// Whether S and each domain are in range.
fn is_taken(given: &[u64; GIVEN_WORDS]) -> bool
    ensures { result ≡ is_taken given.now }
{
    is_good_syncs(syncs_of(given)) && all_good(given)
}

fn is_good_syncs(syncs: u8) -> bool
    ensures { result ≡ within 1 16 syncs }
{
    (NodeSettings::SYNCS_PER_CYCLE_MIN..=NodeSettings::SYNCS_PER_CYCLE_MAX).contains(&syncs)
}

fn all_good(given: &[u64; GIVEN_WORDS]) -> bool
    ensures { result ≡ all_good (node_given given.now).domains }
{
    for d in 0..NodeSettings::DOMAINS {
        if !is_good(given_at(given, d)) {
            return false;
        }
    }
    true
}

// S of the settings.
fn syncs_of(given: &[u64; GIVEN_WORDS]) -> u8
    ensures { result ≡ (node_given given.now).syncs_per_cycle }
{
    (given[0] % 256) as u8
}

// The settings of a domain. That a place is one stands with each function that takes it: a type for it would be proved
// where each loop makes it, and is no plainer.
fn given_at(given: &[u64; GIVEN_WORDS], at: usize) -> DomainSettings
    requires { at < places }
    ensures { result ≡ given_at given.now at }
{
    let from = 1 + SETTINGS_WORDS * at;
    given_of(eleven(&given[from..from + SETTINGS_WORDS]))
}

// Eleven words by value, one by one. Tried: copy_from_slice, with which `kg_new` moved 4,224 bytes, more than a node,
// and took 22,235 cycles.
fn eleven(words: &[u64]) -> [u64; SETTINGS_WORDS]
    requires { length words.now ≡ 11 }
    ensures { result ≡ words.now }
{
    [
        words[0], words[1], words[2], words[3], words[4], words[5], words[6], words[7], words[8],
        words[9], words[10],
    ]
}

// The words of the node, of the settings that are taken, or of absent domains.
fn put_node(node: &mut [u64; NODE_WORDS], given: &[u64; GIVEN_WORDS], taken: bool)
    ensures { node.new ≡ node_words (made_node taken given.now) }
{
    node[0] = 0;
    node[1] = packed(0, made_syncs(given, taken), 0, 0, 0);
    put_records(node, given, taken);
}

fn put_records(node: &mut [u64; NODE_WORDS], given: &[u64; GIVEN_WORDS], taken: bool)
    ensures { node.new ≡ take 2 node.old
        ++ records_words (made_node taken given.now).domains }
{
    for d in 0..NodeSettings::DOMAINS {
        let from = HEAD_WORDS + RECORD_WORDS * d;
        let held = held_at(given, taken, d);
        put_record(&mut node[from..from + RECORD_WORDS], held);
    }
}

// S of the node.
fn made_syncs(given: &[u64; GIVEN_WORDS], taken: bool) -> u8
    ensures { result ≡ made_syncs taken given.now }
{
    if taken { syncs_of(given) } else { 1 }
}

// The settings of a domain of the node.
fn made_at(given: &[u64; GIVEN_WORDS], taken: bool, at: usize) -> DomainSettings
    requires { at < places }
    ensures { result ≡ made_at taken given.now at }
{
    if taken {
        given_at(given, at)
    } else {
        DomainSettings::absent()
    }
}

// What is held of them, in words.
fn held_at(given: &[u64; GIVEN_WORDS], taken: bool, at: usize) -> [u64; SETTINGS_WORDS]
    requires { at < places }
    ensures { result ≡ settings_words (held_of (made_at taken given.now at)) at }
{
    settings_words(made_at(given, taken, at).held(), at as u8)
}

// A record of these words, and of a state that is all 0. A part of an array is a slice: to take it as an array is no
// plainer.
fn put_record(words: &mut [u64], held: [u64; SETTINGS_WORDS])
    requires { length words.old ≡ 22 }
    ensures { words.new ≡ held ++ replicate 11 0 }
{
    put_eleven(&mut words[..SETTINGS_WORDS], held);
    put_eleven(&mut words[SETTINGS_WORDS..], [0; STATE_WORDS]);
}

// Eleven words in place of as many, one by one. Tried: copy_from_slice, with which `kg_new` took 17,236 cycles for
// 11,704.
fn put_eleven(words: &mut [u64], list: [u64; SETTINGS_WORDS])
    requires { length words.old ≡ 11 }
    ensures { words.new ≡ list }
{
    for i in 0..SETTINGS_WORDS {
        words[i] = list[i];
    }
}
