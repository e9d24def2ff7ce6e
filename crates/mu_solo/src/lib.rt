//! A standalone updater (MshDFU, Firmware Update Initiator and Client in one device): one image from its own memory to at most 128
//! nodes, over packets and time. It keeps nothing over a power cut.
//!
//! An updater keeps the client of its update, about 140 KB, and the rows of its receivers; nothing is allocated. An event costs what
//! it costs its client, and once more the rows.
#![tactic(auto)]

mod reading;
mod solo;

pub use mu_updcli::{Plan, Sending};
pub use solo::Solo;
