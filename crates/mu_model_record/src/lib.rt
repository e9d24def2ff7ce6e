//! What is written to a flash: code words, control pages with their slots, marks, and the records and banks of a store.
#![tactic(auto)]

pub mod laws;

use mu_model_image::Meta;

/// What the owner of a store keeps in each record.
pub type Tag = [u8; 1792];

/// What a record says of a bank.
#[derive(Clone, Copy, Debug, PartialEq, Eq)]
pub enum BankState {
    Empty,
    /// Blocks of an image of so many octets come in, of `2^log` octets each.
    Filling { size: u32, log: u8 },
    /// The bank has the image of this metadata.
    Sealed(Meta),
}

/// The fields of a record.
#[derive(Clone, Copy, Debug, PartialEq, Eq)]
pub struct Record {
    /// Records are numbered from 1.
    pub count: u32,
    /// Pages of a bank, 1..256.
    pub pages: u16,
    /// Banks, 2..4.
    pub number: u8,
    /// Places of banks that aren't there are Empty.
    pub banks: [BankState; 4],
    pub tag: Tag,
}
