//! The command `format`: a flash is made the flash of a new node (this profile).
#![tactic(auto)]

mod command;
mod making;

pub use command::{Formatted, format};
pub use making::{Format, Kind};
