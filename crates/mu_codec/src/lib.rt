//! Reads fields from a payload, and writes them into one.
#![tactic(auto)]

mod addresses;
mod cursor;
mod packet;
mod put;

pub use addresses::{is_group, is_unicast};
pub use cursor::Cursor;
pub use mu_model_wire::{Refusal, Why};
pub use packet::{MOST_OCTETS, Outbox, Packet, Payload};
pub use put::{put_octets, put_u8, put_u16, put_u32, put_u40, put_u64};
