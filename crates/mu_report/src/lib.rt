//! Sets of missing numbers, and the reports and lists that name them on the wire.
#![tactic(auto)]

mod list;
mod report;
mod set;

pub use list::{ListFault, decode_list, encode_list};
pub use mu_model_wire::reports::Report;
pub use report::{read_report, report_of};
pub use set::NumberSet;
