//! A node over flash: how one is made.
#![tactic(auto)]

mod making;
mod opening;

pub use making::{make_node, make_old_node, make_pair};
pub use mu_store::{FillFail, FillWhy};
