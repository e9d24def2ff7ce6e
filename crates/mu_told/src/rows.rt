// A receiver's row: how far its packets say that it is (MshDFU, Receivers List; ranks are this profile's).
ghost use Rattle.std.specs.Prelude.{◌≡◌, ℕ, List};
ghost use Rattle.mu_model_image.specs.declared.Meta.{Meta};
ghost use Rattle.mu_model_image.specs.Meta.{firmware_id, own_company};
ghost use Rattle.mu_model_node.specs.UpdateMessages.{UpdateStatus, InformationStatus};
ghost use Rattle.mu_model_client.specs.Answers.{FromUpdate};
ghost use Rattle.mu_model_client.specs.Rows.{rank, phase_reported, row_after};
ghost use Rattle.mu_told.specs.Told.{IsTold, job_of, ids_of};

use crate::update::{Shown, is_of};
use mu_model_client::Sending;
use mu_receivers::Slot;

fn rank(phase: u8) -> u8
    ensures { result ≡ rank phase }
{
    match phase {
        0 | 10 => 0,
        1 | 2 => 1,
        3 => 2,
        4 | 5 => 3,
        6 => 4,
        _ => 5,
    }
}

fn phase_reported(old: u8, new: u8) -> u8
    ensures { result ≡ phase_reported old new }
{
    if new >= 1 && new <= 6 && rank(old) < 5 && rank(old) <= rank(new) {
        new
    } else {
        old
    }
}

/// The row after an Update Status.
pub fn fold_status(slot: &mut Slot, sending: &Sending, status: u8, phase: u8, job: Option<Shown>)
    ensures { (offered : Meta) → IsTold (λ r. record r { row = row_after sending.now.id offered r.row (FromUpdate (UpdateStatus status phase (job_of job))) }) slot.old slot.new }
{
    if is_of(sending.id, job) {
        slot.phase = phase_reported(slot.phase, phase);
    }
}

/// The row after an Information Status whose first entry shows this Firmware ID, where it has one; `own` is that of the offered
/// image.
pub fn fold_information(
    slot: &mut Slot,
    sending: &Sending,
    own: &[u8],
    first: u8,
    shown: Option<&[u8]>,
)
    ensures { (offered : Meta) (count : ℕ) (more : List (List ℕ)) → own.now ≡ firmware_id own_company offered → IsTold (λ r. record r { row = row_after sending.now.id offered r.row (FromUpdate (InformationStatus count first (ids_of shown.entry more))) }) slot.old slot.new }
{
    if first == slot.index && slot.phase >= 1 && slot.phase <= 6 {
        if let Some(id) = shown {
            if id == own {
                slot.phase = 8;
            }
        }
    }
}
