//! The messages of the Firmware Update model, read from a payload and written into one.
#![tactic(auto)]

pub mod laws;
mod message;
mod ranges;
mod reading;
mod writing;

pub use message::{Entry, UpdMsg};
pub use ranges::in_range;
pub use reading::read;
pub use writing::{write, write_information_status};
