//! Metadata and Firmware IDs as octets, digests of images, made octets.
#![tactic(auto)]

mod digesting;
mod made;
mod meta;

pub use digesting::Digesting;
pub use made::{made_byte, make_image};
pub use meta::{Fwid, fwid_of, meta_from, meta_octets};
pub use mu_model_image::Meta;
