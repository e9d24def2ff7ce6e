//! What a BLOB Transfer Server has in memory: its session and the block that comes. It does the rows of the BLOB table there, and says what they do to
//! what is kept (MshMBT, BLOB Transfer Server behavior; in this profile). No flash, and no heap.
#![tactic(auto)]

mod blocks;
mod chunks;
mod phase;
mod session;
mod time;

pub use chunks::Came;
pub use session::{BlobSession, Kept};
