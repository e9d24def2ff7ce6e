//! What a Firmware Distribution Server is asked, read from a message, what it does and answers, and its answers as packets (MshDFU,
//! Firmware Distribution Server behavior; in this profile). What changes is handed back as a step over what is kept in memory.
#![tactic(auto)]

mod answering;
mod deciding;
mod images;
mod messages;
mod reading;
mod sending;
mod steps;
mod writing;

pub use answering::answer;
pub use deciding::decide;
pub use images::delete_images;
pub use messages::DistRequest;
pub use reading::{request_at, request_of};
pub use sending::send;
pub use steps::{Decision, DistStep};
pub use writing::octets_of;
