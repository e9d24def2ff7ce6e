//! The lines that show messages (this profile): a message's name, then a blank, a name, an equals sign and a value for
//! each field that is there.
#![tactic(auto)]

mod blob;
mod distribution;
mod fields;
mod lines;
mod lists;
mod names;
mod update;
mod writing;

pub use blob::show_blob;
pub use distribution::show_distribution;
pub use update::show_update;
