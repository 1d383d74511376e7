// Records and readings that no node gives: each step still answers as its definition says.
use crate::steps;
use settings::Role;

// Only a master sends. The other steps do not look at the role.
pub fn roles(rt: &impl Print) {
    let mut d = steps::fresh_as(rt, Role::Slave, 1_000, 500);
    d = steps::set(rt, d, 0, 5, 0);
    d = steps::sent(rt, d, 0);
    d = steps::confirmed(rt, d, 0, 0);
    d = steps::fresh_as(rt, Role::Absent, 1_000, 500);
    d = steps::set(rt, d, 0, 5, 0);
    d = steps::sent(rt, d, 0);
}

// Before the reading of the base, of the last sending and of the SYNC, no time has passed.
pub fn earlier(rt: &impl Print) {
    let mut d = steps::fresh(rt, 1_000, 500);
    d = steps::set(rt, d, 700, 5, 3);
    d = steps::sent(rt, d, 600);
    d = steps::sent(rt, d, 100);
    d = steps::confirmed(rt, d, 100, 0);
}

// A next counter that no frame carries is taken modulo 16.
pub fn next_counter(rt: &impl Print) {
    let mut d = steps::fresh(rt, 1_000, 500);
    d = steps::set(rt, d, 0, 5, 0);
    d.next_counter = 255;
    d = steps::sent(rt, d, 0);
    d = steps::confirmed(rt, d, 0, 255);
    d = steps::confirmed(rt, d, 0, 15);
}

// The update counter, from 255 to 0.
pub fn updates(rt: &impl Print) {
    let mut d = steps::fresh(rt, 1_000, 500);
    d.updates = 254;
    d = steps::set(rt, d, 0, 5, 0);
    d = steps::set(rt, d, 1, 6, 0);
}

// The last C that a node holds has OVS 3. With a longer one OVS goes on; past it 11. P is 5 s, C all of its 32 bits.
pub fn overflow_seconds(rt: &impl Print) {
    for t in [3_000_000_000, 3_000_000_001, 4_294_967_295, 4_294_967_296] {
        overflow(rt, t);
    }
}

// One nanosecond before the next second, confirmed at t.
fn overflow(rt: &impl Print, t: u64) {
    let mut d = steps::fresh(rt, 5_000_000_000, 4_294_967_295);
    d = steps::set(rt, d, 0, 5, 999_999_999);
    d = steps::sent(rt, d, 0);
    d = steps::confirmed(rt, d, t, 0);
}

// An open SYNC with nanoseconds of any size: up to 8 s come over.
pub fn nanoseconds(rt: &impl Print) {
    steps::followed(rt, 4_294_967_295, 3_999_999_999, 0);
    steps::followed(rt, 4_294_967_295, 4_000_000_000, 0);
    steps::followed(rt, 4_294_967_295, 4_294_967_295, 4_294_967_295);
    steps::followed(rt, 10, 0, 4_294_967_296);
}
