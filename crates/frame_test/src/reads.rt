// Bytes to values. A line is the bytes and the values, or what is wrong: the length, which is
// looked at first, or the type. A round trip has the bytes that are written of the values too.
use crate::inputs::ids;
use crate::shown;
use frame::Frame;
use frame_read::{NoFrame, read_frame};
use frame_write::frame_bytes;
use test_line as line;

// Paper 01's own frames first; then plain and secured ones at the ends of each field.
pub fn syncs(rt: &impl Print) {
    for n in [
        0x10BB11AA00000E10,
        0x1000200000000064,
        0x1000000000000000,
        0x10FFFFFFFFFFFFFF,
        0x1001F00001020304,
        0x10000FFF80000000,
        0x20BB11AA00000E10,
        0x2000000000000000,
        0x20FFFFFFFFFFFFFF,
        0x2001F90101020304,
    ] {
        read(rt, n);
    }
}

pub fn fups(rt: &impl Print) {
    for n in [
        0x1800200100079D38,
        0x1800110000000064,
        0x1800000000000000,
        0x18FFFF073B9AC9FF,
        0x1801F0043B9ACA00,
        0x18000F02FFFFFFFF,
        0x1800090301020304,
        0x2800200100079D38,
        0x28FF000000000000,
        0x28A5FF07FFFFFFFF,
        0x2800F9043B9AC9FF,
    ] {
        read(rt, n);
    }
}

// Bits 7 to 3 of byte 3 of a FUP.
pub fn reserved_bits(rt: &impl Print) {
    for n in [
        0x180020F800079D38,
        0x180020FC00079D38,
        0x180020FF00079D38,
        0x1800200900079D38,
        0x280020F800079D38,
        0x280020FC00079D38,
        0x280020FF00079D38,
    ] {
        read(rt, n);
    }
}

// 0, 1, 7, 9 and 16 bytes of a good type, and 1, 7 and 9 of another.
pub fn lengths(rt: &impl Print) {
    let lists: [&[u8]; 8] = [
        b"",
        b"\x10",
        b"\x10\xbb\x11\xaa\x00\x00\x0e",
        b"\x10\xbb\x11\xaa\x00\x00\x0e\x10\x00",
        b"\x10\xbb\x11\xaa\x00\x00\x0e\x10\x00\x00\x00\x00\x00\x00\x00\x00",
        b"\xff",
        b"\x00\x00\x00\x00\x00\x00\x00",
        b"\x34\xbb\x11\xaa\x00\x00\x0e\x10\x00",
    ];
    for bytes in lists {
        read_bytes(rt, bytes);
    }
}

// 0x34 is an offset frame's, 0x78 and 0x88 are those of an authenticated FUP; the others are near a
// good one.
pub fn types(rt: &impl Print) {
    for n in [
        0x00BB11AA00000E10,
        0x11BB11AA00000E10,
        0x30BB11AA00000E10,
        0xFFBB11AA00000E10,
        0x34BB11AA00000E10,
        0x0FBB11AA00000E10,
        0x19BB11AA00000E10,
        0x08BB11AA00000E10,
        0x21BB11AA00000E10,
        0x29BB11AA00000E10,
        0x38BB11AA00000E10,
        0x90BB11AA00000E10,
        0x78BB11AA00000E10,
        0x88BB11AA00000E10,
    ] {
        read(rt, n);
    }
}

// A frame of each kind, which comes back; then a wrong check byte and reserved bits, which do not.
pub fn there_and_back(rt: &impl Print) {
    for n in [
        0x10BB11AA00000E10,
        0x202B19AA00000E10,
        0x18C3F90500079D38,
        0x28A1F90500079D38,
        0x202A19AA00000E10,
        0x18C3F9FD00079D38,
        0x28A1F9FD00079D38,
    ] {
        round(rt, n);
    }
}

// ---- the lines

// The eight bytes of n, as its hexadecimal digits have them.
fn read(rt: &impl Print, n: u64) {
    read_bytes(rt, &n.to_be_bytes());
}

fn read_bytes(rt: &impl Print, bytes: &[u8]) {
    line::word(rt, b"read");
    shown::bytes(rt, bytes);
    match read_frame(bytes) {
        Ok(frame) => shown::values(rt, frame),
        Err(NoFrame::LengthNot8) => line::word(rt, b" length"),
        Err(NoFrame::NoSuchType) => line::word(rt, b" type"),
    }
    line::word(rt, b"\n");
}

fn round(rt: &impl Print, n: u64) {
    let bytes = n.to_be_bytes();
    line::word(rt, b"round");
    shown::bytes(rt, &bytes);
    match read_frame(&bytes) {
        Ok(frame) => back(rt, frame),
        Err(NoFrame::LengthNot8) => line::word(rt, b" length"),
        Err(NoFrame::NoSuchType) => line::word(rt, b" type"),
    }
    line::word(rt, b"\n");
}

fn back(rt: &impl Print, frame: Frame) {
    shown::values(rt, frame);
    shown::frame_bytes(rt, &frame_bytes(frame, ids()));
}
