//! The loop of a serving command: turns of one member over a link and a clock.
#![tactic(auto)]

pub mod laws;
mod member;
mod sending;
mod stop;
mod turns;

pub use member::Member;
pub use stop::{Fault, Stop};
pub use turns::run_turns;
