//! The table of a Firmware Update Server, decided over what it looks at: numbers, metadata, a link (MshDFU, Firmware Update Server
//! behavior; in this profile). It knows no octets of images, no flash and no heap, so one table serves a node over flash and a node
//! in plain values.
#![tactic(auto)]

mod answer;
mod images;
mod look;
mod messages;
mod phases;
mod table;

pub use answer::UpdateAnswer;
pub use images::information;
pub use look::{ActiveMetas, JobLook, NodeLook};
pub use messages::{ShownJob, UpdateReply, UpdateRequest, UpdateStart};
pub use phases::{Phase, phase_of};
pub use table::{
    NewJob, TimeStep, UpdateStep, apply_step, cancel_step, check, check_answer, start_step,
    time_step, update_answer,
};
