// A settings block of the trial: the mark C7 3B, S, the number n of domain blocks, and n blocks of 128
// bytes. Domains without a block are absent. Where n is above 16, the settings are ones that no node takes.
ghost use Rattle.std.specs.Prelude.{◌≡◌};
ghost use Rattle.trial_step.specs.Block.{one_of, domains_of, settings_of};

use crate::domain_block::domain_of;
use settings::{DomainSettings, NodeSettings};
use text::fields::byte_at;

// The settings of a block.
pub fn settings_of(item: &[u8]) -> NodeSettings
    ensures { result ≡ settings_of item.now }
{
    let blocks = byte_at(item, 3);
    if 16 < blocks {
        return NodeSettings {
            syncs_per_cycle: 0,
            domains: [DomainSettings::absent(); 16],
        };
    }
    NodeSettings {
        syncs_per_cycle: byte_at(item, 2),
        domains: domains_of(item, blocks),
    }
}

fn domains_of(item: &[u8], blocks: u8) -> [DomainSettings; 16]
    ensures { result ≡ domains_of 16 blocks item.now }
{
    let mut domains = [DomainSettings::absent(); 16];
    for d in 0..16u8 {
        domains[d as usize] = one_of(item, blocks, d);
    }
    domains
}

fn one_of(item: &[u8], blocks: u8, d: u8) -> DomainSettings
    ensures { result ≡ one_of blocks item.now d }
{
    if d < blocks {
        let start = 4 + 128 * (d as usize);
        domain_of(&item[start.min(item.len())..])
    } else {
        DomainSettings::absent()
    }
}
