// A main cycle of a node in words that a product lends (paper 01, "A master's domain"): sixteen turns over the records
// where they stand, from the one after that served last. A record whose role's byte is no master's, or that is not due
// by its parts, is passed over; one that is due is taken out of the words and sends, and the words of its SYNC are put
// back. Refused, the words and every lent byte stay as they were.
#![tactic(auto)]

mod turns;

ghost use Rattle.words_cycle.specs.Cycle.{CycledBy};

use admission::is_good_reading;
use clock::VirtualLocalTime;
use node_words::NODE_WORDS;
use record_words::packed;
use refusal::Refusal;
use turns::go_in;

// The first S due domains send: 1, 12. Their frames are written one after another from the start of `out`, and `sent`
// tells how many; all other bytes stay.
pub fn cycle_in(node: &mut [u64; NODE_WORDS], t: u64, out: &mut [u8], sent: &mut [u8; 1]) -> u8
    ensures { CycledBy node.old t out.old sent.old result node.new
        out.new sent.new }
{
    if !is_good_reading(VirtualLocalTime(node[0]), VirtualLocalTime(t)) {
        return Refusal::Reading.number();
    }
    let syncs = (node[1] / 4_294_967_296 % 256) as u8;
    if out.len() < 8 * (syncs as usize) {
        return Refusal::NoRoom.number();
    }
    let first = (node[1] / 1_099_511_627_776 % 256) as u8;
    let round = go_in(node, first, VirtualLocalTime(t), syncs, out);
    node[0] = t;
    node[1] = packed(0, syncs, round.next, 0, 0);
    *sent = [round.sent];
    0
}
