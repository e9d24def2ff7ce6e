//! Records of a store: as octets, found on the control pages of a flash, and written there.
#![tactic(auto)]

mod entry;
mod find;
mod octets;
mod ranges;
mod write;

pub use find::{Found, find_present};
pub use mu_model_record::{BankState, Record, Tag};
pub use octets::{record_from, record_octets};
pub use write::{Place, write_anew, write_record};
