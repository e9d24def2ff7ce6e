//! A node as plain values: it does what the node's model says, event by event, and no more. It is slow by a constant alone: linear
//! in packets and octets.
#![tactic(auto)]

mod blob_events;
mod blob_requests;
mod blob_table;
mod blob_time;
mod chunks;
mod foreseen;
mod information;
mod looks;
mod messages;
mod moments;
mod node;
mod node_time;
mod phases;
mod recording;
mod session;
mod slots;
mod timing;
mod update_table;
mod values;

pub use blob_events::Served;
pub use blob_table::{ChunkStep, Server};
pub use messages::{
    BlobAnswer, BlobReply, BlobRequest, Request, ShownJob, UpdateAnswer, UpdateReply,
    UpdateRequest, UpdateStart,
};
pub use mu_blob_rows::{BlockTold, LinkChange, SessionChange, Told, TransferChange};
pub use node::{Done, Reply};
pub use node_time::TimeKind;
pub use phases::{BlobPhase, Serving, UpdatePhase, blob_phase, serving_at, update_phase};
pub use recording::Stop;
pub use slots::{Octets, Slots};
pub use timing::TimeStep;
pub use update_table::{UpdateStep, Updated};
pub use values::{CurrentBlock, Image, Job, PullReport, Session, State};
