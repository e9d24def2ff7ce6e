//! The receivers of a client: what it keeps of each, the lists of what is still to be sent to them, and the image that
//! chunks are read from.
#![tactic(auto)]

mod blocks;
mod each;
mod image;
mod lists;
mod one;
mod reads;
mod seen;
mod slot;

pub use blocks::least_missed;
pub use each::{ask_missing, ask_wanted, begin, count, keep, renew, take_back, unwant};
pub use image::{FaultyImage, ImageBytes, SliceImage};
pub use lists::{Cursor, MOST_PACKETS, Spot, Spots, first_cursor, spots_from};
pub use one::{MOST_SILENT, answer, drop_by};
pub use reads::{MOST_CHUNK, read_chunk};
pub use seen::{
    is_any_begun_for, is_any_listed, is_any_missing_chunks, is_any_pending, is_in, number,
};
pub use slot::{Slot, Was};
