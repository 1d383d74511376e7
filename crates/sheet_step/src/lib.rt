// Records of the bench taken into a sheet (paper 02, request 13): each makes the call that it asks for, and its answer
// is counted. What is read and written is the program's, `sheet`.
#![tactic(auto)]

pub mod report;

ghost use Rattle.std.specs.Prelude.{◌/◌, ◌≡◌, length};
ghost use Rattle.sheet_step.specs.Account.{account_of, called, after_record, records_of, after_records};

use bench_record::{asked_by, payload};
use node::Node;
use node_call::{Request, call};
use sheet_tally::entry::entry_of;
use sheet_tally::sheet::Sheet;
use text::pieces::next_item;

// Where a reading of records stands.
#[derive(Clone, Copy)]
pub struct Account {
    pub node: Node,
    pub sheet: Sheet,
    // How many records are read: none that is bad.
    pub records: u64,
    // Whether a bad one has ended the reading.
    pub bad: bool,
}

impl Account {
    // A record has 20 bytes.
    pub const RECORD: usize = 20;

    // No record is read yet.
    pub fn new(node: Node) -> Account
        ensures { result ≡ account_of node }
    {
        Account {
            node,
            sheet: Sheet::new(),
            records: 0,
            bad: false,
        }
    }
}

// Every whole record of the bytes, in order, up to a bad one.
pub fn take_records(account: Account, bytes: &[u8]) -> Account
    ensures { result ≡ after_records account (records_of (length bytes.now / 20) bytes.now) }
{
    let mut next = account;
    for record in bytes.chunks_exact(Account::RECORD) {
        next = take_record(next, record);
    }
    next
}

// One record. After a bad one nothing is read.
pub fn take_record(account: Account, bytes: &[u8]) -> Account
    ensures { result ≡ after_record account bytes.now }
{
    if account.bad {
        return account;
    }
    match asked_by(bytes) {
        None => Account {
            bad: true,
            ..account
        },
        Some(request) => answered(account, request, payload(bytes)),
    }
}

// A call with the payload as its frame, and its answer counted. What it writes goes to 8 bytes that nobody reads.
fn answered(account: Account, request: Request, payload: [u8; 8]) -> Account
    ensures { result ≡ called account request payload }
{
    let mut sent = [0u8; 8];
    let step = call(account.node, request, &payload, &mut sent);
    Account {
        node: step.node,
        sheet: account.sheet.with(entry_of(step.answer, &payload)),
        records: next_item(account.records),
        ..account
    }
}
