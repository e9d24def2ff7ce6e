//! The commands of the program, over the outside that is handed in.
#![tactic(auto)]

mod call;
mod image;
mod line;
mod payload;
mod payloads;
mod replay;
mod words;
mod work;

pub use call::{Ended, top};
pub use mu_command_line::{Status, WordList};
pub use words::{Command, read_words};
