// What the program prints (paper 02, request 13): the refusal of a record, if any, as the bench prints it, and then
// the sheet.
ghost use Rattle.text.specs.Text.{Wrote};
ghost use Rattle.sheet_step.specs.Report.{refusal_text, report_text};

use crate::Account;
use sheet_line::put_sheet;
use text::Out;
use text::pieces::next_item;

// `left` is how many bytes are left that make no whole record.
pub fn put_report(out: &mut Out, account: Account, left: usize)
    ensures { Wrote (report_text account left) out.old out.new }
{
    put_refusal(out, account.records, account.bad, left);
    put_sheet(out, account.node, account.sheet);
}

#[tactic(auto, using(text::proofs::Wrote::nothing))]
fn put_refusal(out: &mut Out, records: u64, bad: bool, left: usize)
    ensures { Wrote (refusal_text records bad left) out.old out.new }
{
    if bad {
        out.put_bad(next_item(records));
        return;
    }
    if left == 0 {
        return;
    }
    out.put_cut(next_item(records));
}
