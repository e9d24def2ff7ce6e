// What a request does.
ghost use Rattle.std.specs.Prelude.{◌≡◌, ◌≤◌};
ghost use Rattle.mu_distributor_rows.specs.Fits.{IsKnown, IsKnownUpload};
ghost use Rattle.mu_distributor_answers.specs.Steps.{refusal, upload_refusal};

use mu_distributor_rows::{DistributionStep, UploadStart, UploadStep};

/// What a request does. Each step that isn't Tell or refuses is answered with status 0 over what stands after it.
#[derive(Clone, Copy)]
pub enum DistStep<'a> {
    /// Nothing, and this status is answered.
    Tell(u8),
    /// The receivers are those that stand now.
    Receivers,
    /// The distribution is stepped.
    Distribution(DistributionStep),
    /// The upload is stepped by this request.
    Upload(UploadStart<'a>, UploadStep),
    /// The upload's job goes, and the upload is Idle.
    CancelUpload,
    /// Each image with this Firmware ID goes, and the others close up.
    DeleteImages(&'a [u8]),
    /// All images go.
    DeleteAllImages,
}

/// A step, and whether what is kept changes by it.
#[derive(Clone, Copy)]
pub struct Decision<'a> {
    pub step: DistStep<'a>,
    /// Whether a record is due.
    pub due: bool,
}

// The status that refuses a step of the distribution, else 0.
fn refusal(step: DistributionStep) -> u8
    requires { IsKnown step }
    ensures status { result ≡ refusal step }
    ensures known { result ≤ 13 }
{
    match step {
        DistributionStep::Refuse(status) => status,
        DistributionStep::Keep
        | DistributionStep::Begin(_)
        | DistributionStep::Resume
        | DistributionStep::Suspend
        | DistributionStep::Cancel
        | DistributionStep::Rest
        | DistributionStep::Apply => 0,
    }
}

// The same of an upload's.
fn upload_refusal(step: UploadStep) -> u8
    requires { IsKnownUpload step }
    ensures status { result ≡ upload_refusal step }
    ensures known { result ≤ 13 }
{
    match step {
        UploadStep::Refuse(status) => status,
        UploadStep::Keep | UploadStep::Resume | UploadStep::Store(_) | UploadStep::Take(_, _) => 0,
    }
}

impl<'a> DistStep<'a> {
    ghost use Rattle.std.specs.Prelude.{ℕ, ◌≡◌, ◌≤◌, List, MatchResult};
    ghost use Rattle.mu_distmsg.specs.declared.message.ReceiverRow.{ReceiverRow};
    ghost use Rattle.mu_model_distributor.specs.DistState.{DistState};
    ghost use Rattle.mu_distributor_answers.specs.Fits.{IsKnownStep};
    ghost use Rattle.mu_distributor_answers.specs.Steps.{stepped, status_of, is_of_distribution};

    /// The status that is answered: 0 unless the step refuses or tells another.
    pub fn status(self) -> u8
        requires { IsKnownStep self }
        ensures known { result ≤ 13 }
        ensures status { result ≡ status_of self.entry }
        ensures told { (address : ℕ) (s : DistState) (rows : List ReceiverRow) → MatchResult (stepped address s rows self.entry) (λ t. result ≡ 0) (λ status. result ≡ status) }
    {
        match self {
            DistStep::Tell(status) => status,
            DistStep::Distribution(step) => refusal(step),
            DistStep::Upload(_, step) => upload_refusal(step),
            DistStep::Receivers
            | DistStep::CancelUpload
            | DistStep::DeleteImages(_)
            | DistStep::DeleteAllImages => 0,
        }
    }

    /// Whether the distribution itself is stepped, or refuses to be.
    pub fn is_of_distribution(self) -> bool
        ensures { result ≡ is_of_distribution self.entry }
    {
        matches!(self, DistStep::Distribution(_))
    }
}
