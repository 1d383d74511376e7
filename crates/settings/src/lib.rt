// The settings (paper 01, "Settings of a node"): what a product gives for a domain and for the node, what is good, and
// what is held. A role's settings are read only for that role, an absent domain's not at all; what is not read is
// held as 0.
#![tactic(auto)]

mod domain_settings;
pub mod node_settings;
pub mod ranges;

pub use domain_settings::{DomainSettings, Role, Security, UserBytes};
pub use node_settings::NodeSettings;
pub use ranges::is_good;
