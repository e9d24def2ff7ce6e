//! A BLOB Transfer Server over a store (MshMBT, BLOB Transfer Server behavior; in this profile). A node and a distributor are this server with a note
//! of their own. Each call that writes is one call of what is kept, and a packet that doesn't complete a block makes none. No heap.
#![tactic(auto)]

mod answering;
mod chunks;
mod jobs;
mod laws;
mod linked;
mod packets;
mod plugging;
mod readers;
mod sending;
mod server;
mod starting;
mod verifying;
mod whole;

pub use mu_kept::{
    BankState, BootFail, BootWhy, Booted, Expect, FillFail, FillWhy, Note, StoreFault,
};
pub use server::BlobServer;
