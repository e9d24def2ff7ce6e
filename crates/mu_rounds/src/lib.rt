//! A client's rounds over its receivers: how a time event goes on from step to step and round to round, and what it sends (MshMBT,
//! BLOB Transfer Client; MshDFU, Firmware Update Client; rounds, drops and lists are this profile's).
//!
//! A client of 128 receivers keeps four sets of at most 2,048 numbers for each, about 140 KB; nothing is allocated. A time event
//! visits each receiver a few times, and each packet that it sends, and no receiver for each chunk.
#![tactic(auto)]

mod after;
mod begin;
mod left;
mod reads;
mod rounds;
mod said;
mod sending;
mod steps;
mod time;
mod told;

pub use after::part_of;
pub use begin::{KeptRow, new_slot, rounds_at};
pub use left::Left;
pub use reads::read_spots;
pub use rounds::Rounds;
pub use said::{Said, Sent};
pub use sending::send_messages;
pub use told::{Heard, UpdateAnswer};
