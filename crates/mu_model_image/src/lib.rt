//! Images: metadata, Firmware IDs, blocks and chunks, made octets.
#![tactic(auto)]

pub mod laws;

/// Metadata of a firmware image (this profile).
#[derive(Clone, Copy, Debug, PartialEq, Eq)]
pub struct Meta {
    /// Octets of the image. 0 is no metadata.
    pub size: u32,
    pub version: u32,
    /// SHA-256 of the image.
    pub digest: [u8; 32],
}
