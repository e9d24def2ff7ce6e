//! What lies outside the program: inputs, outputs, flashes, links and clocks, as traits, and such objects in memory.
#![tactic(auto)]

mod bytes_sink;
mod bytes_source;
mod calls;
mod cells;
mod clock;
mod cut;
mod faulty;
mod flash;
mod gathered;
mod limited;
mod link;
mod memory;
mod posts;
mod ram;
mod ram_link;
mod set_clock;
mod sink;
mod source;

pub use bytes_sink::BytesSink;
pub use bytes_source::BytesSource;
pub use clock::Clock;
pub use cut::CutFlash;
pub use faulty::FaultyFlash;
pub use flash::{Flash, Plug};
pub use gathered::{Gather, Gathered, Lent, Loan};
pub use limited::Limited;
pub use link::{Incoming, Link};
pub use mu_model_flash::{Failed, Pattern};
pub use ram::RamFlash;
pub use ram_link::RamLink;
pub use set_clock::SetClock;
pub use sink::Sink;
pub use source::Source;
