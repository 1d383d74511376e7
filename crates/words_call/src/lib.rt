// A read, a set and a confirmation of a node in words that a product lends (paper 01): the record of the domain is
// taken out of the words and called; under 0 the part that the call changes is put back, and under any other number
// the words and every lent byte stay as they were.
#![tactic(auto)]

ghost use Rattle.std.specs.Prelude.{◌≡◌};
ghost use Rattle.words_call.specs.Calls.{shown_words, ReadIn, SetIn, ConfirmedBy};

use call_confirm::confirm_call;
use call_read::{Shown, read_call};
use call_set::set_call;
use clock::VirtualLocalTime;
use node_words::{NODE_WORDS, put_base, put_sent, record_in};
use record_words::packed;
use refusal::Numbered;

// The words of what a read shows: its seconds; packed(nanoseconds; status, user 0, 1, 2); the update counter.
pub const SHOWN_WORDS: usize = 3;

// Time, status, user bytes and update counter of a domain at t: 1, 4, 10. It changes nothing.
pub fn read_in(node: &[u64; NODE_WORDS], domain: u8, t: u64, shown: &mut [u64; SHOWN_WORDS]) -> u8
    ensures { ReadIn node.now domain t shown.old result shown.new }
{
    let kept = VirtualLocalTime(node[0]);
    match read_call(record_in(node, domain), kept, domain, VirtualLocalTime(t)) {
        Err(refusal) => refusal.number(),
        Ok(read) => {
            put_shown(shown, read);
            0
        }
    }
}

fn put_shown(shown: &mut [u64; SHOWN_WORDS], read: Shown)
    ensures { shown.new ≡ shown_words read }
{
    let time = read.time;
    let user = read.user;
    *shown = [
        time.0,
        packed(time.1, read.status, user.0, user.1, user.2),
        u64::from(read.updates),
    ];
}

// The base of a domain holds the given time at t: 1, 4, 9.
pub fn set_in(
    node: &mut [u64; NODE_WORDS],
    domain: u8,
    t: u64,
    seconds: u32,
    nanoseconds: u32,
) -> u8
    ensures { SetIn node.old domain t seconds nanoseconds result node.new }
{
    let kept = VirtualLocalTime(node[0]);
    let record = record_in(node, domain);
    let call = set_call(
        record,
        kept,
        domain,
        VirtualLocalTime(t),
        seconds,
        nanoseconds,
    );
    let answer = call.answer;
    let number = answer.number();
    if number == 0 {
        let then = call.kept;
        let after = call.domain;
        node[0] = then.0;
        put_base(node, domain, after);
    }
    number
}

// The FUP of a domain's open SYNC, written at the start of `out`: 1, 4, 11, 12.
pub fn confirm_in(
    node: &mut [u64; NODE_WORDS],
    domain: u8,
    t: u64,
    counter: u8,
    out: &mut [u8],
) -> u8
    ensures { ConfirmedBy node.old domain t counter out.old result node.new
        out.new }
{
    let kept = VirtualLocalTime(node[0]);
    let record = record_in(node, domain);
    let call = confirm_call(record, kept, domain, VirtualLocalTime(t), counter, out);
    let answer = call.answer;
    let number = answer.number();
    if number == 0 {
        let then = call.kept;
        let after = call.domain;
        node[0] = then.0;
        put_sent(node, domain, after);
    }
    number
}
