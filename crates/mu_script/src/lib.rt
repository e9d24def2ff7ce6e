//! Reads the lines of a script.
#![tactic(auto)]

mod cursor;
mod events;
mod octets;
mod reading;

pub use events::{Content, Event};
pub use mu_codec::Payload;
pub use mu_model_flash::Pattern;
pub use mu_model_script::{LineFault, LineWhy};
pub use octets::number;
pub use reading::read_line;
