//! The note of a distributor: its octets, read and written.
#![tactic(auto)]

mod note;
mod reading;
mod rules;
mod spelled;
mod writing;

pub use mu_distributor_kept::{ReceiverRow, Rows, UploadPhase};
pub use mu_note::{Foreign, Note};
pub use note::NoteHead;
pub use reading::distributor_note_from;
pub use writing::distributor_note_octets;
