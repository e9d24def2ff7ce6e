//! A store on a flash: banks for images, and a record of them with its owner's tag. Its typed states own the flash.
#![tactic(auto)]

mod base;
mod booting;
mod digest;
mod entries;
mod faults;
mod filling;
mod formatting;
mod judge;
mod laws;
mod marks;
mod pages;
mod plugging;
mod reading;
mod sealing;
mod source;
mod store;
mod whole;

pub use booting::{BootFail, BootWhy, Booted, boot};
pub use faults::{Stopped, StoreFault};
pub use filling::Filling;
pub use formatting::format;
pub use mu_record::{BankState, Tag};
pub use sealing::Sealing;
pub use store::Store;
pub use whole::{FillFail, FillWhy};
