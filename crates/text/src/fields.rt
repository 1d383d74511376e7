// Numbers in bytes, big-endian, from a place on. Bytes beyond the end count as 0.
ghost use Rattle.std.specs.Prelude.{◌<◌, ◌+◌, ◌≡◌, get_or};
ghost use Rattle.text.specs.Fields.{pair_at, word_at, long_at, bytes_at};

pub fn byte_at(bytes: &[u8], at: usize) -> u8
    ensures { result ≡ get_or bytes.now at 0 }
{
    bytes.get(at).copied().unwrap_or(0)
}

// Two bytes.
pub fn pair_at(bytes: &[u8], at: u16) -> u16
    ensures { result ≡ pair_at bytes.now at }
{
    u16::from_be_bytes(bytes_from(bytes, at))
}

// Four bytes.
pub fn word_at(bytes: &[u8], at: u16) -> u32
    ensures { result ≡ word_at bytes.now at }
{
    u32::from_be_bytes(bytes_from(bytes, at))
}

// Eight bytes.
pub fn long_at(bytes: &[u8], at: u16) -> u64
    ensures { result ≡ long_at bytes.now at }
{
    u64::from_be_bytes(bytes_from(bytes, at))
}

// Sixteen bytes as they stand.
pub fn sixteen_at(bytes: &[u8], at: u16) -> [u8; 16]
    ensures { result ≡ bytes_at 16 bytes.now at }
{
    bytes_from(bytes, at)
}

// N bytes as they stand.
fn bytes_from<const N: usize>(bytes: &[u8], at: u16) -> [u8; N]
    requires { N < 100 }
    ensures { result ≡ bytes_at N bytes.now at }
{
    let mut list = [0u8; N];
    for i in 0..N {
        list[i] = byte_at(bytes, at as usize + i);
    }
    list
}
