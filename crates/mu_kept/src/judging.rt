// Whether a record goes with the job that its tag says.
ghost use Rattle.std.specs.Prelude.{◌≡◌, ◌↔◌, IsTrue, IfSome, None, Some};
ghost use Rattle.std.specs.Option.{option_map};
ghost use Rattle.mu_model_represents.specs.BlobPart.{TakesBy, HasBlobRules, IsBlobRecord, IsNoBlobRecord};
ghost use Rattle.mu_note.specs.Views.{part_job};
ghost use Rattle.mu_place.specs.Place.{place_fault, place_record};

use mu_model_jobs::laws::parts;
use mu_model_node::Parameters;
use mu_note::{BlobJob, blob_part_of};
use mu_outside::Flash;
use mu_place::Place;
use mu_store::BankState;

fn takes(state: BankState, parameters: &Parameters) -> bool
    ensures { IsTrue result ↔ TakesBy parameters.now state }
{
    match state {
        BankState::Empty => false,
        BankState::Filling { size, log } => size == parameters.size && log == parameters.log,
        BankState::Sealed(meta) => {
            meta.size == parameters.size && parameters.log >= 12 && parameters.log <= 14
        }
    }
}

fn job_goes_with<F: Flash>(place: &Place<F>, job: &BlobJob) -> bool
    requires { place_fault place.now ≡ None }
    ensures { IsTrue result ↔ HasBlobRules (place_record place.now) (Some (part_job job.now)) }
{
    if job.size == 0 || job.size > place.capacity() || job.bank >= place.banks() {
        return false;
    }
    match &job.parameters {
        None => place.filling().is_none(),
        Some(parameters) => takes(place.bank_state(job.bank), parameters),
    }
}

// Whether the record of a store goes with a job, or with none. No fault is kept.
fn goes_with<F: Flash>(place: &Place<F>, job: &Option<BlobJob>) -> bool
    requires { place_fault place.now ≡ None }
    ensures { IsTrue result ↔ HasBlobRules (place_record place.now) (option_map part_job job.now) }
{
    place.known();
    match job {
        None => place.filling().is_none(),
        Some(job) => job_goes_with(place, job),
    }
}

// The job that the tag of a store says, or that there is none, where that is a BLOB part and the record goes with it. No fault is kept.
pub(crate) fn job_of<F: Flash>(place: &Place<F>) -> Option<Option<BlobJob>>
    requires { place_fault place.now ≡ None }
    ensures some { IfSome result (λ job. IsBlobRecord (place_record place.now) (option_map part_job job)) }
    ensures none { result ≡ None → IsNoBlobRecord (place_record place.now) }
{
    parts();
    match blob_part_of(place.tag()) {
        Err(_) => None,
        Ok(job) if goes_with(place, &job) => Some(job),
        Ok(_) => None,
    }
}
