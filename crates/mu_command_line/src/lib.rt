//! The words of a command line, how a command ends, and what it writes (this profile).
#![tactic(auto)]

mod status;
mod words;
mod writing;

pub use status::Status;
pub use words::WordList;
pub use writing::{write_all, write_pieces, write_refusal};
