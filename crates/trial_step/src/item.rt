// An item of the trial by its first bytes: what it is, and how long.
ghost use Rattle.std.specs.Prelude.{◌≡◌};
ghost use Rattle.trial_step.specs.Item.{kind_of, item_of, item_length};

use crate::queue::frame_bytes;
use text::fields::byte_at;

#[derive(Drop)]
pub enum Item {
    // A settings block.
    Settings,
    // A queue, kind 6.
    Queue,
    // A frame on one record, kind 7.
    One,
    // Any other call record, or none.
    Record,
}

// What an item is: by its mark, and a call record by its kind.
pub fn item_of(bytes: &[u8]) -> Item
    ensures { result ≡ item_of bytes.now }
{
    if byte_at(bytes, 0) != 0xC7 {
        return Item::Record;
    }
    match byte_at(bytes, 1) {
        0x3A => kind_of(byte_at(bytes, 2)),
        0x3B => Item::Settings,
        _ => Item::Record,
    }
}

fn kind_of(kind: u8) -> Item
    ensures { result ≡ kind_of kind }
{
    match kind {
        6 => Item::Queue,
        7 => Item::One,
        _ => Item::Record,
    }
}

// How many bytes the item has that begins here: those of a settings block or of a queue, or 20. Where its first bytes
// have not come yet, it is more than there are.
pub fn item_length(bytes: &[u8]) -> usize
    ensures { result ≡ item_length bytes.now }
{
    match item_of(bytes) {
        Item::Settings => 4 + 128 * (byte_at(bytes, 3) as usize),
        Item::Queue => 20 + 8 * (byte_at(bytes, 3) as usize) + frame_bytes(bytes),
        Item::One => 20,
        Item::Record => 20,
    }
}
