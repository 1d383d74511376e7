// Whether a frame is good under each of the four check modes. A line is the bytes and the verdicts.
use crate::inputs::ids;
use crate::shown;
use frame_check::CheckMode;
use test_line as line;

// A plain SYNC and a plain FUP; then a secured SYNC and a secured FUP, each with the right check
// byte, with one bit of it off, the lowest and the highest, and with that of the other kind's list.
pub fn right_and_wrong(rt: &impl Print) {
    for n in [
        0x10BB19AA00000E10,
        0x1800290100079D38,
        0x202B19AA00000E10,
        0x202A19AA00000E10,
        0x20AB19AA00000E10,
        0x201519AA00000E10,
        0x282F290100079D38,
        0x282E290100079D38,
        0x28AF290100079D38,
        0x2811290100079D38,
    ] {
        good(rt, n);
    }
}

// The first and the last counter; then the DataID of the next counter, and of the place that the
// domain would name.
pub fn counters(rt: &impl Print) {
    for n in [
        0x20CA10AA00000E10,
        0x20AF1FAA00000E10,
        0x28CE200100079D38,
        0x28AB2F0100079D38,
        0x205A19AA00000E10,
        0x2809290100079D38,
    ] {
        good(rt, n);
    }
}

// Reserved bits set: the check byte over the bytes as received, and over them with these bits 0.
pub fn reserved_bits(rt: &impl Print) {
    for n in [0x28CC29F900079D38, 0x282F29F900079D38] {
        good(rt, n);
    }
}

// Byte 1 of a plain frame is a user byte, whatever it holds.
pub fn plain_with_a_check_byte(rt: &impl Print) {
    for n in [0x102B19AA00000E10, 0x182F290100079D38] {
        good(rt, n);
    }
}

// Wrong lengths and wrong types, most of them with the check byte of a good frame.
pub fn no_frames(rt: &impl Print) {
    let lists: [&[u8]; 4] = [
        b"\x20\x2b\x19\xaa\x00\x00\x0e",
        b"\x28\x2f\x29\x01\x00\x07\x9d",
        b"\x20\x2b\x19\xaa\x00\x00\x0e\x10\x00",
        b"",
    ];
    for bytes in lists {
        good_bytes(rt, bytes);
    }
    for n in [
        0x302B19AA00000E10,
        0x342F290100079D38,
        0x0000000000000000,
        0x882F290100079D38,
    ] {
        good(rt, n);
    }
}

// ---- the lines

// The eight bytes of n, as its hexadecimal digits have them.
fn good(rt: &impl Print, n: u64) {
    good_bytes(rt, &n.to_be_bytes());
}

fn good_bytes(rt: &impl Print, bytes: &[u8]) {
    line::word(rt, b"good");
    shown::bytes(rt, bytes);
    verdict(rt, b" validated", CheckMode::Validated, bytes);
    verdict(rt, b" not-validated", CheckMode::NotValidated, bytes);
    verdict(rt, b" ignored", CheckMode::Ignored, bytes);
    verdict(rt, b" optional", CheckMode::Optional, bytes);
    line::word(rt, b"\n");
}

fn verdict(rt: &impl Print, name: &[u8], mode: CheckMode, bytes: &[u8]) {
    line::word(rt, name);
    line::yes_no(rt, mode.takes(bytes, ids()));
}
