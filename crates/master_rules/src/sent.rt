// How a master's frames go out (paper 01, "Settings of a node").
ghost use Rattle.std.specs.Prelude.{◌≡◌};
ghost use Rattle.master_rules.specs.Sent.{protection_of};

use frame::Protection;
use settings::Security;

// How a frame goes out, with the user byte that only a plain one carries.
pub fn protection(security: Security, user: u8) -> Protection
    ensures { result ≡ protection_of security user }
{
    match security {
        Security::Plain => Protection::Plain(user),
        Security::Secured => Protection::Secured,
    }
}
