// Paper 01, "Frames": "The tests compare with that library's published vectors". These, and inputs
// at the edges. A line is the input in hexadecimal, the DataID where there is one, and the answer.
#![tactic(auto)]

use std::array;
use test_line::{byte, hex, word};

fn main(rt: HostRuntime) {
    published(&rt);
    edges(&rt);
    data_ids(&rt);
    steps(&rt);
}

fn published(rt: &impl Print) {
    crc(rt, b"\x00\x00\x00\x00");
    crc(rt, b"\xf2\x01\x83");
    crc(rt, b"\x0f\xaa\x00\x55");
    crc(rt, b"\x00\xff\x55\x11");
    crc(rt, b"\x33\x22\x55\xaa\xbb\xcc\xdd\xee\xff");
    crc(rt, b"\x92\x6b\x55");
    crc(rt, b"\xff\xff\xff\xff");
    crc(rt, b"123456789");
}

// No byte, one byte, as many as a frame has, 15, and more than the table has entries.
fn edges(rt: &impl Print) {
    crc(rt, b"");
    crc(rt, b"\x00");
    crc(rt, b"\xff");
    crc(rt, b"\x00\x01\x02\x03\x04\x05\x06\x07");
    crc(
        rt,
        b"\x00\x11\x22\x33\x44\x55\x66\x77\x88\x99\xaa\xbb\xcc\xdd\xee",
    );
    long_crc(rt);
}

// The DataID comes last: two inputs with a byte and the DataID in each other's place; no byte, and
// published vectors whose last byte is taken for the DataID, with the answers of `crc`; and the six
// bytes of a frame.
fn data_ids(rt: &impl Print) {
    check(rt, b"\x12", 0x34);
    check(rt, b"\x34", 0x12);
    check(rt, b"\x00\xff", 0x0f);
    check(rt, b"\x0f\xff", 0x00);
    check(rt, b"", 0x00);
    check(rt, b"", 0xff);
    check(rt, b"\x00\x00\x00", 0x00);
    check(rt, b"\xf2\x01", 0x83);
    check(rt, b"\x0f\xaa\x00", 0x55);
    check(rt, b"\x33\x22\x55\xaa\xbb\xcc\xdd\xee", 0xff);
    check(rt, b"\x11\xaa\x00\x00\x0e\x10", 0x5a);
}

// The table at its ends and where the top bit sets in; a byte step from no remainder and from 0xff.
fn steps(rt: &impl Print) {
    for index in [0x00, 0x01, 0x7f, 0x80, 0xff] {
        entry(rt, index);
    }
    for (remainder, next) in [(0x00, 0x01), (0xff, 0x01), (0xff, 0xff)] {
        byte_step(rt, remainder, next);
    }
}

// ---- the lines

fn crc(rt: &impl Print, bytes: &[u8]) {
    input(rt, bytes);
    answer(rt, crc8::crc(bytes));
}

fn long_crc(rt: &impl Print) {
    word(rt, b"long 300");
    answer(rt, crc8::crc(&long()));
}

fn check(rt: &impl Print, bytes: &[u8], data_id: u8) {
    input(rt, bytes);
    byte(rt, data_id);
    answer(rt, crc8::check(bytes, data_id));
}

fn entry(rt: &impl Print, index: u8) {
    word(rt, b"entry");
    byte(rt, index);
    answer(rt, crc8::entry(index));
}

fn byte_step(rt: &impl Print, remainder: u8, next: u8) {
    word(rt, b"byte_step");
    byte(rt, remainder);
    byte(rt, next);
    answer(rt, crc8::byte_step(remainder, next));
}

// ---- their parts

fn answer(rt: &impl Print, value: u8) {
    byte(rt, value);
    word(rt, b"\n");
}

fn input(rt: &impl Print, bytes: &[u8]) {
    if bytes.len() == 0 {
        word(rt, b"empty");
    } else {
        hex(rt, bytes);
    }
}

// The numbers from 0 to 299, modulo 256.
fn long() -> [u8; 300] {
    array::from_fn(|i| (i % 256) as u8)
}
