// The weekly precision sheet (paper 02, request 13): bench records on standard input, the sheet on standard output. Of
// what is read and written no contract can speak: these functions are proved safe and ending. What the records make of
// the sheet, and its text, are the promises of `sheet_step`.
#![tactic(auto)]

use bench_settings::bench_settings;
use node::Node;
use sheet_step::report::put_report;
use sheet_step::{Account, take_records};
use std::io::Read;
use text::Out;
use text::pieces::{keep_rest, refill, say_unread, write_out};

// How many bytes are read and written at once at most.
const PIECE: usize = 65_536;

#[derive(Drop)]
struct Run {
    account: Account,
    // How many bytes are held that make no whole record.
    held: usize,
    goes_on: bool,
}

fn main(rt: HostRuntime) {
    let mut from = rt.reader();
    let mut input = [0u8; PIECE];
    let mut out = [0u8; PIECE];
    let mut run = Run::new();
    // A proved loop has to end, and nothing says that the input does: no run uses these turns up.
    for _ in 0..u64::MAX {
        if !run.goes_on {
            return;
        }
        run.read_on(&rt, &mut from, &mut input, &mut out);
    }
}

// Like the run of `runs`, and apart from it: a trait for both is no plainer, since there a read writes the lines of
// items, and here it writes none.
impl Run {
    fn new() -> Run {
        let new = Node::new(bench_settings());
        Run {
            account: Account::new(new.node),
            held: 0,
            goes_on: true,
        }
    }

    // Reads once and takes the whole records; at the end of the input, or at a bad record, reports. Where reading
    // fails there is no sheet: it would hide records.
    fn read_on(
        &mut self,
        rt: &(impl Print + Eprint),
        from: &mut impl Read,
        input: &mut [u8],
        out: &mut [u8],
    ) {
        match refill(from, input, self.held) {
            Err(_) => {
                say_unread(rt);
                self.goes_on = false;
            }
            Ok(None) => self.report(rt, out),
            Ok(Some(held)) => {
                let held = held.min(input.len());
                self.take(rt, &mut input[..held], out);
            }
        }
    }

    fn report(&mut self, rt: &impl Print, out: &mut [u8]) {
        let mut text = Out { bytes: out, at: 0 };
        put_report(&mut text, self.account, self.held);
        let end = text.at;
        write_out(rt, text.bytes, end);
        self.goes_on = false;
    }

    // The whole records of what is held, and the rest in front.
    fn take(&mut self, rt: &impl Print, input: &mut [u8], out: &mut [u8]) {
        let held = input.len();
        self.account = take_records(self.account, input);
        self.held = keep_rest(input, held - held % Account::RECORD, held);
        if self.account.bad {
            self.report(rt, out);
        }
    }
}
