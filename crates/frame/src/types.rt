// Byte 0 of a frame, its type (paper 01, "Frames").
ghost use Rattle.std.specs.Prelude.{◌≡◌};
ghost use Rattle.frame.specs.Types.{type_of};

// The four types.
#[derive(Drop)]
pub enum FrameType {
    PlainSync,
    SecuredSync,
    PlainFup,
    SecuredFup,
}

impl FrameType {
    // The type that byte 0 says, if it is one.
    pub fn of(byte: u8) -> Option<FrameType>
        ensures { result ≡ type_of byte }
    {
        match byte {
            0x10 => Some(FrameType::PlainSync),
            0x20 => Some(FrameType::SecuredSync),
            0x18 => Some(FrameType::PlainFup),
            0x28 => Some(FrameType::SecuredFup),
            _ => None,
        }
    }
}
