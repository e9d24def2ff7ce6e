//! The world of a script: its members, all that was sent, what has happened, and what each line prints.
#![tactic(auto)]

mod bag;
mod content;
mod fault;
mod head;
mod lines;
mod log;
mod member;
mod members;
mod packets;
mod shown;
mod state;
mod world;

pub use fault::WorldFault;
pub use lines::Lines;
pub use log::LogEntry;
pub use mu_reference_node::What;
pub use world::World;
