// A part of a record's state into the words: the part that a call changes, and no other word.
ghost use Rattle.std.specs.Prelude.{◌+◌, ◌%◌, ◌≤◌, ◌≡◌, ◌∷◌, [], length};
ghost use Rattle.settings.specs.Node.{places};
ghost use Rattle.node_words.specs.Words.{node_size, state_at, frame_put, base_put, sent_put, with_part};

use crate::{HEAD_WORDS, NODE_WORDS, RECORD_WORDS};
use domain::Domain;
use record_words::{SETTINGS_WORDS, state_words};
use settings::NodeSettings;

// What a slave's frame changes.
pub fn put_frame(node: &mut [u64; NODE_WORDS], at: u8, domain: Domain)
    ensures { node.new ≡ frame_put node.old (at % places) domain }
{
    let list = state_words(domain);
    put_part(node, state_of(at), &list[..8]);
}

// What a set changes.
pub fn put_base(node: &mut [u64; NODE_WORDS], at: u8, domain: Domain)
    ensures { node.new ≡ base_put node.old (at % places) domain }
{
    let list = state_words(domain);
    put_three(node, state_of(at) + 4, list[4], list[5], list[6]);
}

// What a main cycle and a confirmation change.
pub fn put_sent(node: &mut [u64; NODE_WORDS], at: u8, domain: Domain)
    ensures { node.new ≡ sent_put node.old (at % places) domain }
{
    let list = state_words(domain);
    put_three(node, state_of(at) + 8, list[8], list[9], list[10]);
}

// Where a record's state begins.
fn state_of(at: u8) -> usize
    ensures { result ≡ state_at (at % places) }
{
    HEAD_WORDS + SETTINGS_WORDS + RECORD_WORDS * ((at as usize) % NodeSettings::DOMAINS)
}

// Words in place of as many, from a place on.
fn put_part(node: &mut [u64; NODE_WORDS], from: usize, part: &[u64])
    requires { from + length part.now ≤ node_size }
    ensures { node.new ≡ with_part from (length part.now) node.old part.now }
{
    node[from..from + part.len()].copy_from_slice(part);
}

// Three words in place of three, one by one. Tried: the array's part by `put_part`, with which the whole array is made
// and `kg_set` took 222 cycles for 150; three words as an array, 228.
fn put_three(node: &mut [u64; NODE_WORDS], from: usize, a: u64, b: u64, c: u64)
    requires { from + 3 ≤ node_size }
    ensures { node.new ≡ with_part from 3 node.old (a ∷ b ∷ c ∷ []) }
{
    put_words(&mut node[from..from + 3], a, b, c);
}

fn put_words(words: &mut [u64], a: u64, b: u64, c: u64)
    requires { length words.old ≡ 3 }
    ensures { words.new ≡ a ∷ b ∷ c ∷ [] }
{
    words[0] = a;
    words[1] = b;
    words[2] = c;
}
