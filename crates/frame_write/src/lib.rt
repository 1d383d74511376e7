// Values to bytes (paper 01, "Frames"). Reserved bits are written as 0. A value out of its range is
// written modulo the range: no frame that a node makes has one.
// What cannot be written is answered, and then no lent byte has changed.
#![tactic(auto)]

ghost use Rattle.std.specs.Prelude.{◌≡◌};
ghost use Rattle.frame_write.specs.Write.{flags, framed_of, bytes_of, WrittenAt};

use frame::{DataIds, Frame, Protection, byte_two, id_at};

// A lent buffer that ends before a frame's last byte.
#[derive(Clone, Copy)]
pub struct NoRoom;

// The frame's 8 bytes, with the DataID at its counter in the list for its kind. One form for both
// kinds is no plainer: all but domain, counter and protection are each kind's own.
pub fn frame_bytes(frame: Frame, ids: DataIds) -> [u8; 8]
    ensures { result ≡ bytes_of ids frame }
{
    match frame {
        Frame::Sync(s) => {
            let two = byte_two(s.domain, s.counter);
            let id = id_at(ids.sync, s.counter);
            framed(0x10, 0x20, s.protection, two, s.user0, s.seconds, id)
        }
        Frame::Fup(f) => {
            let two = byte_two(f.domain, f.counter);
            let three = flags(f.sgw, f.ovs);
            let id = id_at(ids.fup, f.counter);
            framed(0x18, 0x28, f.protection, two, three, f.nanoseconds, id)
        }
    }
}

// Writes the frame's bytes from index `at` on, or changes nothing where they do not fit.
pub fn write_frame(frame: Frame, ids: DataIds, out: &mut [u8], at: usize) -> Result<(), NoRoom>
    ensures { WrittenAt frame ids at out.old result out.new }
{
    if out.len() < 8 || out.len() - 8 < at {
        return Err(NoRoom);
    }
    out[at..at + 8].copy_from_slice(&frame_bytes(frame, ids));
    Ok(())
}

fn flags(sgw: bool, ovs: u8) -> u8
    ensures { result ≡ flags sgw ovs }
{
    if sgw { 4 + ovs % 4 } else { ovs % 4 }
}

fn framed(
    plain: u8,
    secured: u8,
    protection: Protection,
    two: u8,
    three: u8,
    word: u32,
    id: u8,
) -> [u8; 8]
    ensures { result ≡ framed_of plain secured protection two three word id }
{
    let [four, five, six, seven] = word.to_be_bytes();
    match protection {
        Protection::Plain(user) => [plain, user, two, three, four, five, six, seven],
        Protection::Secured => {
            let rest = [two, three, four, five, six, seven];
            let check = crc8::check(&rest, id);
            [secured, check, two, three, four, five, six, seven]
        }
    }
}
