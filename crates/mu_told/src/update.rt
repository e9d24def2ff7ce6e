// Steps that update messages answer.
ghost use Rattle.std.specs.Prelude.{◌≡◌};
ghost use Rattle.mu_model_node.specs.UpdateMessages.{MetadataStatus, UpdateStatus};
ghost use Rattle.mu_model_client.specs.Told.{on_check, on_start, on_verify, on_apply, on_confirm, on_cancel, is_of, has_taken, on_phase};
ghost use Rattle.mu_told.specs.Told.{IsTold, job_of};

use crate::refused::refuse_update;
use mu_model_client::{Dropped, Sending, Step};
use mu_receivers::{Slot, answer, drop_by};

/// What a Firmware Update Status shows of a job.
#[derive(Clone, Copy, Debug, PartialEq, Eq)]
pub struct Shown {
    pub ttl: u8,
    /// The Timeout Base.
    pub base: u16,
    /// The BLOB ID.
    pub id: u64,
    /// The index of the image.
    pub index: u8,
}

pub(crate) fn is_of(id: u64, job: Option<Shown>) -> bool
    ensures { result ≡ is_of id (job_of job) }
{
    match job {
        None => false,
        Some(shown) => shown.id == id,
    }
}

fn has_taken(phase: u8) -> bool
    ensures { result ≡ has_taken phase }
{
    phase == 2 || phase == 3 || phase == 4 || phase == 6
}

/// Check: a Metadata Status.
pub fn on_metadata_status(slot: &mut Slot, status: u8, index: u8)
    ensures { IsTold (λ r. on_check r (MetadataStatus status index)) slot.old slot.new }
{
    if index == slot.index {
        if status == 0 {
            answer(slot);
        } else {
            refuse_update(slot, Step::Check, status);
        }
    }
}

/// Start: an Update Status.
pub fn on_start(slot: &mut Slot, sending: &Sending, status: u8, phase: u8, job: Option<Shown>)
    ensures { IsTold (λ r. on_start sending.now r (UpdateStatus status phase (job_of job))) slot.old slot.new }
{
    if status != 0 {
        refuse_update(slot, Step::Start, status);
    } else if is_of(sending.id, job) && has_taken(phase) {
        answer(slot);
    }
}

/// Verify: an Update Status.
pub fn on_verify(slot: &mut Slot, sending: &Sending, status: u8, phase: u8, job: Option<Shown>)
    ensures { IsTold (λ r. on_verify sending.now r (UpdateStatus status phase (job_of job))) slot.old slot.new }
{
    if is_of(sending.id, job) {
        on_phase(slot, phase);
    }
}

fn on_phase(slot: &mut Slot, phase: u8)
    ensures { IsTold (λ r. on_phase r phase) slot.old slot.new }
{
    if phase == 4 || phase == 6 {
        answer(slot);
    } else if phase == 1 || phase == 5 {
        drop_by(slot, Dropped::Phase(phase));
    } else if phase == 3 {
        slot.silent = 0;
    }
}

/// Apply: an Update Status.
pub fn on_apply(slot: &mut Slot, sending: &Sending, status: u8, phase: u8, job: Option<Shown>)
    ensures { IsTold (λ r. on_apply sending.now r (UpdateStatus status phase (job_of job))) slot.old slot.new }
{
    if is_of(sending.id, job) {
        if status != 0 {
            refuse_update(slot, Step::Apply, status);
        } else if phase == 6 {
            answer(slot);
        }
    }
}

/// Confirm: any packet once the row is in Apply Success.
pub fn on_confirm(slot: &mut Slot)
    ensures { IsTold on_confirm slot.old slot.new }
{
    if slot.phase == 8 {
        answer(slot);
    }
}

/// Cancel: an Update Status.
pub fn on_cancel(slot: &mut Slot, sending: &Sending, status: u8, phase: u8, job: Option<Shown>)
    ensures { IsTold (λ r. on_cancel sending.now r (UpdateStatus status phase (job_of job))) slot.old slot.new }
{
    if phase == 0 || !is_of(sending.id, job) {
        answer(slot);
    }
}
