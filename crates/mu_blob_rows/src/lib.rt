//! The table of a BLOB Transfer Server, decided over what its rows look at: counts, what is missing, and numbers (MshMBT, BLOB
//! Transfer Server behavior; in this profile). No octets of a block, no flash and no memory but the values that are handed in.
#![tactic(auto)]

mod deciding;
mod looks;
mod session;
mod table;
mod timing;

pub use looks::{BlobPhase, BlockLook, Look, Serving, TransferLook};
pub use session::{LinkChange, PullReport, Session, SessionChange};
pub use table::{BlockTold, BlocksLook, ChunkLook, ChunkStep, ReportTold, Told, TransferChange};
pub use timing::{TimeStep, is_late, report_due};
