// Calls to a node that no constructor gives (paper 01): its master waits for a confirmation as long as 32 bits
// can say, was updated 255 times, and sends counter 15 next. So 4 s come over, which no good C lets come, and the
// counters pass their ends. A line each, as the trial has them; the trial's tests have every other case.
#![tactic(auto)]

use clock::VirtualLocalTime;
use domain::Domain;
use frame::DataIds;
use frame_check::CheckMode;
use node::Node;
use node_call::{Request, call};
use settings::{DomainSettings, NodeSettings, Role, Security, UserBytes};
use text::Out;
use text::pieces::write_out;
use trial_step::line::put_trial_line;

// The set; the read; SYNC 15. 12 at its confirmation; then OVS 3 a nanosecond before 4 s come over. SYNC 0, and its
// FUP, for which 4 s come over: OVS has two bits, and is written as 0.
fn main(rt: HostRuntime) {
    let mut n = strange();
    for (item, request, length) in [
        (1, Request::Set(4, VirtualLocalTime(5000), 5, 0), 10),
        (2, Request::Read(4, VirtualLocalTime(5000)), 10),
        (3, Request::Cycle(VirtualLocalTime(5000)), 10),
        (
            4,
            Request::Confirm(4, VirtualLocalTime(4_000_005_000), 15),
            7,
        ),
        (
            5,
            Request::Confirm(4, VirtualLocalTime(4_000_004_999), 15),
            10,
        ),
        (6, Request::Cycle(VirtualLocalTime(4_000_005_000)), 10),
        (
            7,
            Request::Confirm(4, VirtualLocalTime(8_000_005_000), 0),
            10,
        ),
    ] {
        n = ask(&rt, n, item, request, length);
    }
}

// A call with a lent buffer of 10 bytes, or 7.
fn ask(rt: &impl Print, n: Node, item: u64, request: Request, length: u8) -> Node {
    if length == 7 {
        ask_in(rt, n, item, request, &mut [0xA5; 7])
    } else {
        ask_in(rt, n, item, request, &mut [0xA5; 10])
    }
}

fn ask_in(rt: &impl Print, n: Node, item: u64, request: Request, lent: &mut [u8]) -> Node {
    let mut line = [0u8; 128];
    let called = call(n, request, &[], lent);
    let mut out = Out {
        bytes: &mut line,
        at: 0,
    };
    put_trial_line(&mut out, item, called.answer, lent);
    let end = out.at;
    write_out(rt, out.bytes, end);
    called.node
}

fn strange() -> Node {
    let made = Node::new(NodeSettings {
        syncs_per_cycle: 1,
        domains: [DomainSettings::absent(); NodeSettings::DOMAINS],
    });
    let mut n = made.node;
    n.domains[4] = Domain {
        updates: 255,
        next_counter: 15,
        ..Domain::new(4, master())
    };
    n
}

// Secured, P 4 s; no byte of the DataIDs stands twice, so a wrong list or place shows.
fn master() -> DomainSettings {
    let sync = *b"\x10\x11\x12\x13\x14\x15\x16\x17\x18\x19\x1a\x1b\x1c\x1d\x1e\x1f";
    let fup = *b"\xa0\xa1\xa2\xa3\xa4\xa5\xa6\xa7\xa8\xa9\xaa\xab\xac\xad\xae\xaf";
    DomainSettings {
        period: 4_000_000_000,
        confirmation_time: u32::MAX,
        ids: DataIds { sync, fup },
        role: Role::Master,
        mode: CheckMode::Optional,
        security: Security::Secured,
        user: UserBytes(0xB0, 0xB1, 0xB2),
        ..DomainSettings::absent()
    }
}
