// What a product uses, by one name: `use knottgust::on_frame;`. The calls of a node and what they answer; calls on the
// record of one domain; the settings that a node is made of; readings and times; the refusal numbers. No function of
// its own: every name is passed on from the crate that has it.
#![tactic(auto)]

pub use call_confirm::confirm_call;
pub use call_read::{Shown, read_call};
pub use call_set::set_call;
pub use clock::{GlobalTime, VirtualLocalTime};
pub use domain::{Domain, DomainCall};
pub use frame::{DataIds, Fup};
pub use frame_check::CheckMode;
pub use lent_frame::{LentFrame, frame_lent, frame_on};
pub use node::{Node, NodeStep, on_confirmation, on_frame, on_main_cycle, on_read, on_set};
pub use node_queue::{NodeQueue, QUEUE_MOST, on_queue};
pub use refusal::{Numbered, Outcome, Refusal};
pub use settings::{DomainSettings, NodeSettings, Role, Security, UserBytes};
pub use slave_answer::Taken;
pub use slave_status::{
    GLOBAL_TIME_BASE, SYNC_TO_GATEWAY, TIMELEAP_FUTURE, TIMELEAP_PAST, TIMEOUT,
};
