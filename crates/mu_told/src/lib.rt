//! What an answer to a client makes of a receiver that hasn't answered its step yet (MshMBT, BLOB Transfer Client; MshDFU,
//! Firmware Update Client; what drops a receiver is this profile's).
#![tactic(auto)]

mod answer;
mod blob;
mod information;
mod pull;
mod refused;
mod rows;
mod update;

pub use answer::{BlobAnswer, on_blob_answer};
pub use blob::{MOST_BARREN, on_block, on_get, on_transfer};
pub use information::{Limits, on_limits};
pub use pull::{MOST_WANTED, on_part, on_pull_status};
pub use rows::{fold_information, fold_status};
pub use update::{Shown, on_apply, on_cancel, on_confirm, on_metadata_status, on_start, on_verify};
