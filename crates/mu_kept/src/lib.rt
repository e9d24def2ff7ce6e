//! What a BLOB Transfer Server keeps over a power cut: a store that is owned, and the job that the tag of its present record says (this profile).
//! Each call that writes is one call of the store.
#![tactic(auto)]

mod filling;
mod judging;
mod laws;
mod missing;
mod plugging;
mod readers;
mod reading;
mod records;
mod sealing;
mod store;
mod tags;
mod whole;

pub use mu_note::{BlobJob, Note};
pub use mu_place::{FillingBank, Place};
pub use mu_store::{BankState, BootFail, BootWhy, Booted, FillFail, FillWhy, StoreFault};
pub use store::{Expect, JobStore};
