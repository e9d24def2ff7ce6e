//! Control pages, slots and marks on a flash: what a cut of the power leaves of them.
#![tactic(auto)]

mod code;
mod mark;
mod page;
mod slot;
mod ways;

pub use mark::{Mark, read_mark, write_mark};
pub use mu_outside::Failed;
pub use page::{erase_page, read_page, write_page};
pub use slot::{read_slot, write_slot};
pub use ways::Ways;
