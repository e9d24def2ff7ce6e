//! What a distributor keeps in memory of its receivers and of the phase of its upload.
#![tactic(auto)]

mod phase;
mod rows;

pub use mu_distmsg::ReceiverRow;
pub use phase::UploadPhase;
pub use rows::{Rows, has_address};
