//! A BLOB Transfer Client (MshMBT): one BLOB to at most 128 receivers that lose packets. What is sent again, who is dropped and
//! why are this profile's.
//!
//! A client keeps four sets of at most 2,048 numbers for each of 128 receivers, about 140 KB; nothing is allocated. A time event
//! visits each receiver a few times and each packet that it sends, and no receiver for each chunk. A packet looks for its
//! receiver among the addresses, and then costs what its own length does.
#![tactic(auto)]

mod client;
mod receivers;
mod wanted;

pub use client::BlobClient;
pub use mu_model_client::{Dropped, Sending, TransferRow};
pub use mu_receivers::{FaultyImage, ImageBytes, SliceImage};
