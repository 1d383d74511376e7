// The values of a frame (paper 01, "Frames"): its type and its fields, but for reserved bits and
// check byte.
ghost use Rattle.std.specs.Prelude.{◌≡◌};
ghost use Rattle.frame.specs.Values.{domain_in};

// Plain, with the user byte that byte 1 carries, 1 in a SYNC and 2 in a FUP; or secured, where byte 1
// is the check byte and no value. No Option<u8>, whose None would say "no user byte" and not "secured".
#[derive(Clone, Copy)]
pub enum Protection {
    Plain(u8),
    Secured,
}

// The values of a SYNC. Domain and counter are below 16.
#[derive(Clone, Copy)]
pub struct Sync {
    pub domain: u8,
    pub counter: u8,
    pub user0: u8,
    pub seconds: u32,
    pub protection: Protection,
}

// The values of a FUP. Domain and counter are below 16, OVS is below 4.
#[derive(Clone, Copy)]
pub struct Fup {
    pub domain: u8,
    pub counter: u8,
    pub sgw: bool,
    pub ovs: u8,
    pub nanoseconds: u32,
    pub protection: Protection,
}

#[derive(Clone, Copy)]
pub enum Frame {
    Sync(Sync),
    Fup(Fup),
}

impl Frame {
    // The domain that the values name.
    pub fn domain(self) -> u8
        ensures { result ≡ domain_in self }
    {
        match self {
            Frame::Sync(sync) => sync.domain,
            Frame::Fup(fup) => fup.domain,
        }
    }
}
