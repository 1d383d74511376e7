// The settings of a node (paper 01, "Settings of a node"): S, and 16 domains.
ghost use Rattle.std.specs.Prelude.{◌≡◌};
ghost use Rattle.settings.specs.Node.{all_good, judged_of};

use crate::DomainSettings;
use crate::ranges::is_good;
use refusal::{Outcome, Refusal};

#[derive(Clone, Copy)]
pub struct NodeSettings {
    // S, SYNC frames per main cycle.
    pub syncs_per_cycle: u8,
    pub domains: [DomainSettings; NodeSettings::DOMAINS],
}

impl NodeSettings {
    // Domains 0 to 15.
    pub const DOMAINS: usize = 16;

    pub const SYNCS_PER_CYCLE_MIN: u8 = 1;

    pub const SYNCS_PER_CYCLE_MAX: u8 = 16;

    // Good, or refused by 14 where S or one domain is out of range.
    pub fn judge(self) -> Outcome<()>
        ensures { result ≡ judged_of self }
    {
        let syncs = NodeSettings::SYNCS_PER_CYCLE_MIN..=NodeSettings::SYNCS_PER_CYCLE_MAX;
        if syncs.contains(&self.syncs_per_cycle) && all_good(&self.domains) {
            Ok(())
        } else {
            Err(Refusal::Settings)
        }
    }
}

fn all_good(domains: &[DomainSettings]) -> bool
    ensures { result ≡ all_good domains.now }
{
    domains.iter().all(|settings| is_good(*settings))
}
