// A word of a half and four bytes.
ghost use Rattle.std.specs.Prelude.{◌≡◌};
ghost use Rattle.record_words.specs.Packed.{packed_of, half_of, word_of, sixteen_of};

pub fn packed(low: u32, a: u8, b: u8, c: u8, d: u8) -> u64
    ensures { result ≡ packed_of low a b c d }
{
    u64::from(low) + u64::from(half(a, b, c, d)) * 4_294_967_296
}

// Four bytes as a half.
pub fn half(a: u8, b: u8, c: u8, d: u8) -> u32
    ensures { result ≡ half_of a b c d }
{
    u32::from_le_bytes([a, b, c, d])
}

// The first eight of sixteen bytes as a word, and the last eight.
pub fn first_word(bytes: [u8; 16]) -> u64
    ensures { result ≡ word_of 0 bytes }
{
    u64::from_le_bytes([
        bytes[0], bytes[1], bytes[2], bytes[3], bytes[4], bytes[5], bytes[6], bytes[7],
    ])
}

pub fn last_word(bytes: [u8; 16]) -> u64
    ensures { result ≡ word_of 8 bytes }
{
    u64::from_le_bytes([
        bytes[8], bytes[9], bytes[10], bytes[11], bytes[12], bytes[13], bytes[14], bytes[15],
    ])
}

// Sixteen bytes of two words.
pub fn sixteen_of(one: u64, two: u64) -> [u8; 16]
    ensures { result ≡ sixteen_of one two }
{
    let a = one.to_le_bytes();
    let b = two.to_le_bytes();
    [
        a[0], a[1], a[2], a[3], a[4], a[5], a[6], a[7], b[0], b[1], b[2], b[3], b[4], b[5], b[6],
        b[7],
    ]
}
