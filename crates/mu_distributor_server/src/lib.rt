//! A distributor over a flash (MshDFU, Firmware Distribution Server; in this profile): its boot, what it shows, its requests on
//! receivers and those that only ask. Each that changes what is kept writes one record before it is answered.
#![tactic(auto)]

mod booting;
mod committing;
mod distributor;
mod judging;
mod looking;
mod plugging;
mod readers;
mod requests;
mod ways;

pub use distributor::Distributor;
pub use mu_distributor_memory::{DistRequest, ReceiverRow, UploadPhase};
pub use mu_store::{BootFail, BootWhy, StoreFault};
