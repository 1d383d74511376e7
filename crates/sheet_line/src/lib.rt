// The sheet in text (paper 02, request 13): a line for each slave, and the closing line.
#![tactic(auto)]

pub mod signed;

ghost use Rattle.text.specs.Text.{Wrote};
ghost use Rattle.sheet_line.specs.Line.{
  counts_text,
  spread_text,
  line_text,
  other_text,
  domain_text,
  sheet_text,
};

use crate::signed::{put_plain, put_signed, put_told};
use node::Node;
use settings::Role;
use sheet_sum::Sum;
use sheet_tally::Tally;
use sheet_tally::sheet::Sheet;
use sheet_tally::spread::Spread;
use text::Out;

// The lines of the node's slaves, by rising number, and the closing line.
pub fn put_sheet(out: &mut Out, node: Node, sheet: Sheet)
    ensures { Wrote (sheet_text node sheet) out.old out.new }
{
    for d in 0..Node::DOMAINS {
        let record = node.domains[d];
        let settings = record.settings;
        let role = settings.role;
        let tally = sheet.tallies[d];
        put_domain(out, d as u8, role, tally);
    }
    put_other(out, sheet.other);
}

// A slave has a line, and another domain none.
#[tactic(auto, using(text::proofs::Wrote::nothing))]
fn put_domain(out: &mut Out, domain: u8, role: Role, tally: Tally)
    ensures { Wrote (domain_text domain role tally) out.old out.new }
{
    match role {
        Role::Absent => {}
        Role::Slave => put_line(out, domain, tally),
        Role::Master => {}
    }
}

// The domain, its counts, and what is said of D.
pub fn put_line(out: &mut Out, domain: u8, tally: Tally)
    ensures { Wrote (line_text domain tally) out.old out.new }
{
    let counts = tally.counts;
    let spread = tally.spread;
    let sum = tally.sum;
    out.put_decimal(domain as u64);
    put_counts(out, counts);
    put_spread(out, spread, sum);
    out.put_byte(b'\n');
}

// The count of each column.
fn put_counts(out: &mut Out, counts: [u64; Tally::COLUMNS])
    ensures { Wrote (counts_text counts) out.old out.new }
{
    for n in &counts {
        put_plain(out, *n);
    }
}

// The least D, the greatest, and the sum.
fn put_spread(out: &mut Out, spread: Option<Spread>, sum: Sum)
    ensures { Wrote (spread_text spread sum) out.old out.new }
{
    match spread {
        None => out.put_bytes(b" - - -"),
        Some(spread) => {
            put_signed(out, spread.least);
            put_signed(out, spread.greatest);
            put_told(out, sum.told());
        }
    }
}

// The closing line.
fn put_other(out: &mut Out, other: u64)
    ensures { Wrote (other_text other) out.old out.new }
{
    out.put_bytes(b"other");
    put_plain(out, other);
    out.put_byte(b'\n');
}
