// Text in a lent buffer. Each function writes from the place on, and the place moves on by what it
// wrote. Where the buffer ends, nothing more is written and the place stays.
#![tactic(auto)]

pub mod fields;
pub mod lines;
pub mod pieces;

ghost use Rattle.std.specs.Prelude.{◌<◌, ◌≡◌, [], ◌∷◌};
ghost use Rattle.text.specs.Text.{Wrote, hex_digit, hex_byte, hex_of, digits, decimal};

// A lent buffer, and the place in it where the next byte goes.
#[derive(Drop)]
pub struct Out<'a> {
    pub bytes: &'a mut [u8],
    pub at: usize,
}

impl Out<'_> {
    #[tactic(auto, unfolding(crate::specs::Text::puts))]
    pub fn put_byte(&mut self, byte: u8)
        ensures { Wrote (byte ∷ []) self.old self.new }
    {
        if self.at < self.bytes.len() {
            self.bytes[self.at] = byte;
            self.at += 1;
        }
    }

    pub fn put_bytes(&mut self, bytes: &[u8])
        ensures { Wrote bytes.now self.old self.new }
    {
        for byte in bytes {
            self.put_byte(*byte);
        }
    }

    // Two hexadecimal digits.
    pub fn put_hex_byte(&mut self, byte: u8)
        ensures { Wrote (hex_byte byte) self.old self.new }
    {
        self.put_byte(hex_digit(byte / 16));
        self.put_byte(hex_digit(byte % 16));
    }

    // Like `put_bytes`: one loop for both with the writer of a byte as a parameter is no plainer.
    pub fn put_hex(&mut self, bytes: &[u8])
        ensures { Wrote (hex_of bytes.now) self.old self.new }
    {
        for byte in bytes {
            self.put_hex_byte(*byte);
        }
    }

    // The last nine decimal digits of n.
    pub fn put_nine_digits(&mut self, n: u32)
        ensures { Wrote (digits 9 n) self.old self.new }
    {
        let mut power: u32 = 1_000_000_000;
        for _i in 0..9u8 {
            power /= 10;
            self.put_byte(b'0' + (n / power % 10) as u8);
        }
    }

    // n in decimal digits, without leading zeros.
    pub fn put_decimal(&mut self, n: u64)
        ensures { Wrote (decimal n) self.old self.new }
    {
        let mut text = [0u8; 20];
        let count = io::decimal(n, &mut text);
        self.put_bytes(&text[..count]);
    }
}

fn hex_digit(digit: u8) -> u8
    requires { digit < 16 }
    ensures { result ≡ hex_digit digit }
{
    if digit < 10 { 48 + digit } else { 55 + digit }
}
