//! A distributor over flash: how one is made.
#![tactic(auto)]

mod making;

pub use making::make_distributor;
pub use mu_store::{Stopped, StoreFault};
