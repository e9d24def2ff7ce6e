//! The table of a Firmware Distribution Server, decided over what it looks at: numbers, metadata, phases (MshDFU, Firmware
//! Distribution Server behavior; in this profile). It knows no octets of images, no flash and no heap.
#![tactic(auto)]

mod banks;
mod distribution;
mod firmware;
mod looks;
mod receivers;
mod replies;
mod uploads;

pub use banks::{capabilities_answer, has_bank};
pub use distribution::{
    DistributionStep, distribution_answer, distribution_apply, distribution_cancel,
    distribution_start, distribution_suspend,
};
pub use firmware::{
    all_firmware_status, firmware_delete, firmware_delete_all, firmware_get, firmware_get_by_index,
    firmware_status, has_id,
};
pub use looks::{DistLook, UploadLook, is_at_rest, upload_phase};
pub use mu_distributor_kept::{ReceiverRow, Rows, UploadPhase};
pub use receivers::{receivers_add, receivers_delete_all, receivers_list, receivers_status};
pub use replies::{DistAnswer, DistReply, ShownUpload};
pub use uploads::{
    UploadStart, UploadStep, is_upload_due, transfer_progress, upload_answer, upload_cancel,
    upload_start,
};
