//! A store that is owned: its typed states are replaced by value in one place, and a fault is kept.
#![tactic(auto)]

mod filling;
mod laws;
mod place;
mod plugging;
mod readers;
mod reading;
mod records;
mod sealing;
mod whole;

pub use mu_store::{BankState, Booted, FillFail, FillWhy, StoreFault, Tag};
pub use place::{FillingBank, Place};
