//! A Firmware Update Client (MshDFU): one image to at most 128 receivers, from the check of its metadata to the confirmation that
//! they run it. What is sent again, who is dropped and why, and the rows' ranks and verdicts are this profile's.
//!
//! A client keeps four sets of at most 2,048 numbers for each of 128 receivers, about 140 KB; nothing is allocated. A time event
//! visits each receiver a few times and each packet that it sends, and no receiver for each chunk. A packet looks for its
//! receiver among the addresses, and then costs what its own length does.
#![tactic(auto)]

mod client;
mod rows;

pub use client::UpdateClient;
pub use mu_model_client::{Dropped, Plan, Sending, Stage};
