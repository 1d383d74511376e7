// The DataIDs of a domain (paper 01, "Settings of a node"): 16 for SYNC and 16 for FUP, one for each
// counter.
ghost use Rattle.std.specs.Prelude.{◌≡◌};
ghost use Rattle.frame.specs.Ids.{id_at};

use crate::nibbles::COUNTERS;

#[derive(Clone, Copy)]
pub struct DataIds {
    pub sync: [u8; DataIds::COUNTERS],
    pub fup: [u8; DataIds::COUNTERS],
}

impl DataIds {
    // One for each counter.
    pub const COUNTERS: usize = COUNTERS as usize;
}

// The DataID that a list holds at a counter.
pub fn id_at(list: [u8; DataIds::COUNTERS], counter: u8) -> u8
    ensures { result ≡ id_at list counter }
{
    let place = (counter % COUNTERS) as usize;
    list[place]
}
