// A tracker's use of the library, whole: settings, a node, a SYNC and its FUP received, the time read; the next two
// from the queue of the bus driver, in one call; a time set, a SYNC sent in a main cycle, its FUP at the confirmation.
// Readings are written out where a product reads its clock, and frames where it has them from the bus.
#![tactic(auto)]

use knottgust::{
    CheckMode, DomainSettings, GlobalTime, Node, NodeSettings, Numbered, Role, Taken,
    VirtualLocalTime, on_confirmation, on_frame, on_main_cycle, on_queue, on_read, on_set,
};

const SLAVE: u8 = 1;

const MASTER: u8 = 2;

fn main(rt: HostRuntime) {
    let new = Node::new(settings());
    say(&rt, "settings", new.answer.number());
    receive(&rt, new.node);
    send(&rt, new.node);
}

// S 1; domain 1 a slave and domain 2 a master; the others absent.
fn settings() -> NodeSettings {
    let mut domains = [DomainSettings::absent(); NodeSettings::DOMAINS];
    domains[SLAVE as usize] = slave();
    domains[MASTER as usize] = master();
    NodeSettings {
        syncs_per_cycle: 1,
        domains,
    }
}

// What a role does not have read stays as an absent domain has it.
fn slave() -> DomainSettings {
    DomainSettings {
        follow_up_time: 100_000_000,
        loss_time: 2_000_000_000,
        future_threshold: 500_000_000,
        past_threshold: 500_000_000,
        role: Role::Slave,
        mode: CheckMode::NotValidated,
        jump_width: 2,
        hysteresis: 0,
        clear_count: 61,
        ..DomainSettings::absent()
    }
}

fn master() -> DomainSettings {
    DomainSettings {
        period: 1_000_000_000,
        confirmation_time: 200_000_000,
        role: Role::Master,
        ..DomainSettings::absent()
    }
}

// A SYNC and its FUP, and the time a second later. Go on with the node that a call gives back.
fn receive(rt: &impl Print, node: Node) {
    let sync = [0x10, 0xBB, 0x11, 0xAA, 0x00, 0x00, 0x0E, 0x10];
    let fup = [0x18, 0x00, 0x11, 0x00, 0x00, 0x00, 0x00, 0x64];
    let heard = on_frame(node, VirtualLocalTime(5_000_000_000), &sync);
    say(rt, "SYNC", heard.answer.number());
    let joined = on_frame(heard.node, VirtualLocalTime(5_010_000_000), &fup);
    say(rt, "FUP", joined.answer.number());
    if let Ok(Taken::First) = joined.answer {
        let _ = println!(rt; "the first time of this domain");
    }
    let read = on_read(joined.node, SLAVE, VirtualLocalTime(6_010_000_000));
    say(rt, "read", read.number());
    if let Ok(shown) = read {
        say_time(rt, shown.time);
    }
    receive_queue(rt, joined.node);
}

// The SYNC and the FUP a second later, as the bus driver's queue has them: a reading for each frame, eight bytes for
// each, and room for a number for each.
fn receive_queue(rt: &impl Print, node: Node) {
    let readings = [6_020_000_000, 6_030_000_000];
    let frames = [
        0x10, 0xBB, 0x12, 0xAA, 0x00, 0x00, 0x0E, 0x11, 0x18, 0x00, 0x12, 0x00, 0x00, 0x00, 0x00,
        0x64,
    ];
    let mut numbers = [0u8; 2];
    let queued = on_queue(node, &readings, &frames, &mut numbers);
    say(rt, "queue", queued.answer.number());
    say(rt, "its SYNC", numbers[0]);
    say(rt, "its FUP", numbers[1]);
}

// The base set, a SYNC in a main cycle, and its FUP once the controller says that the SYNC left.
fn send(rt: &impl Print, node: Node) {
    let mut out = [0u8; 8];
    let set = on_set(
        node,
        MASTER,
        VirtualLocalTime(7_000_000_000),
        100,
        999_999_000,
    );
    say(rt, "set", set.answer.number());
    let cycle = on_main_cycle(set.node, VirtualLocalTime(7_000_000_000), &mut out);
    say(rt, "main cycle", cycle.answer.number());
    if cycle.answer.is_ok() {
        say_frame(rt, out);
    }
    // the counter of a SYNC stands in the low four bits of byte 2
    let counter = out[2] % 16;
    let confirmed = on_confirmation(
        cycle.node,
        MASTER,
        VirtualLocalTime(7_000_500_000),
        counter,
        &mut out,
    );
    say(rt, "confirmation", confirmed.answer.number());
    say_frame(rt, out);
}

// What was called, and the number of its answer: 0 is success.
fn say(rt: &impl Print, what: &str, number: u8) {
    let _ = println!(rt; "{what} {number}");
}

fn say_time(rt: &impl Print, time: GlobalTime) {
    let GlobalTime(seconds, nanoseconds) = time;
    let _ = println!(rt; "{seconds} s and {nanoseconds} ns");
}

fn say_frame(rt: &impl Print, frame: [u8; 8]) {
    for byte in frame {
        let _ = print!(rt; "{byte:02x}");
    }
    let _ = println!(rt; "");
}
