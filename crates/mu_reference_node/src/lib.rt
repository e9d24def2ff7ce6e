//! A node in memory: packets and time events over octets, its log, and what a script reads of it. It does what the node's model
//! says, and no more.
#![tactic(auto)]

mod event;
mod happening;
mod logging;
mod node;
mod reading;
mod readings;
mod writing;

pub use event::{Event, Stepped};
pub use logging::{Entries, What};
pub use mu_reference::Stop;
pub use node::Node;
