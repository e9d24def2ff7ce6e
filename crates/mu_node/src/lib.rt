//! A node over flash: a BLOB server, with the note of a node (MshDFU, Firmware Update Server behavior; in this profile). No heap.
#![tactic(auto)]

mod booting;
mod free;
mod judging;
mod laws;
mod looking;
mod moments;
mod node;
mod plugging;
mod readers;
mod records;
mod steps;
mod updating;
mod ways;

pub use mu_blobsrv::{BootFail, BootWhy, StoreFault};
pub use mu_model_node::NodeConfig;
pub use mu_update_rows::{UpdateRequest, UpdateStart};
pub use node::Node;
