// The turns of a main cycle over a node in words.
ghost use Rattle.std.specs.Prelude.{◌≤◌, ◌<◌, ◌≡◌, length};
ghost use Rattle.settings.specs.Node.{places};
ghost use Rattle.master_send.specs.Send.{is_due};
ghost use Rattle.node_words.specs.Words.{record_by, record_of};
ghost use Rattle.words_cycle.specs.Cycle.{TurnedIn, GoneIn};

use clock::VirtualLocalTime;
use frame::Frame;
use frame_write::write_frame;
use master_rules::due_at;
use master_send::send;
use node_words::{HEAD_WORDS, NODE_WORDS, RECORD_WORDS, put_sent, record_in};
use record_words::{SETTINGS_WORDS, held_of, role_of, sending_of};
use round::turns::PLACES;
use settings::NodeSettings;

// Where the next round starts, and how many have sent.
#[derive(Drop)]
pub(crate) struct Gone {
    pub(crate) next: u8,
    pub(crate) sent: u8,
}

// A round: each due domain sends until as many have sent as a cycle may.
pub(crate) fn go_in(
    node: &mut [u64; NODE_WORDS],
    first: u8,
    t: VirtualLocalTime,
    most: u8,
    out: &mut [u8],
) -> Gone
    ensures { GoneIn node.old first t most out.old result
        node.new out.new }
{
    let mut at = first % PLACES;
    let mut next = first;
    let mut sent: u8 = 0;
    for _turns in 0..NodeSettings::DOMAINS {
        if sent < most {
            if turn_in(node, at, t, out, sent) {
                sent += 1;
                next = (at + 1) % PLACES;
            }
        }
        at = (at + 1) % PLACES;
    }
    Gone { next, sent }
}

// A record's turn: whether it sent, its SYNC written behind the frames that are there.
fn turn_in(
    node: &mut [u64; NODE_WORDS],
    at: u8,
    t: VirtualLocalTime,
    out: &mut [u8],
    sent: u8,
) -> bool
    requires at_lt_places { at < places }
    requires sent_le_places { sent ≤ places }
    ensures { TurnedIn node.old at t out.old sent result
        node.new out.new }
{
    if !due_in(node, at as usize, t) {
        return false;
    }
    let record = record_in(node, at);
    let settings = record.settings;
    let ids = settings.ids;
    let step = send(record, t);
    let answer = step.answer;
    let after = step.domain;
    let Some(sync) = answer else {
        return false;
    };
    put_sent(node, at, after);
    let _ = write_frame(Frame::Sync(sync), ids, out, 8 * (sent as usize));
    true
}

// Whether the record at a place is due, by the words that this needs.
fn due_in(node: &[u64; NODE_WORDS], at: usize, t: VirtualLocalTime) -> bool
    requires { at < places }
    ensures { result ≡ is_due (record_of node.now at) t }
{
    let from = HEAD_WORDS + RECORD_WORDS * at;
    let state = from + SETTINGS_WORDS;
    due_by(&node[from..state], &node[state..state + SETTINGS_WORDS], t)
}

// Slices: arrays by `first_chunk` are no plainer, since an `Option` stands between, and the code is as large.
fn due_by(given: &[u64], state: &[u64], t: VirtualLocalTime) -> bool
    requires given_len { length given.now ≡ 11 }
    requires state_len { length state.now ≡ 11 }
    ensures { result ≡ is_due (record_by given.now state.now) t }
{
    let kinds = given[5];
    if kinds / 4_294_967_296 % 256 != 2 {
        return false;
    }
    let base = held_of(state[4], state[5], state[6]);
    let sending = sending_of(state[8], state[9], state[10]);
    due_at(role_of(kinds), given[4], base, sending, t).is_some()
}
