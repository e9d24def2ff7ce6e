//! What a distributor has in memory of its record (this profile): what its requests look at, the steps that they come to, and the note that is written.
#![tactic(auto)]

mod memory;
mod noting;
mod receivers;
mod steps;

pub use memory::Memory;
pub use mu_distributor_answers::{Decision, DistRequest, DistStep};
pub use mu_distributor_note::{Note, NoteHead, ReceiverRow, Rows, UploadPhase};
pub use mu_distributor_rows::{DistAnswer, DistLook, UploadLook};
