//! Worked rows of a distributor: functions that do nothing, whose contracts are evaluated.

ghost use Rattle.mu_model_distributor_rows.specs.Banks.{EachBank};
ghost use Rattle.mu_model_distributor_rows.specs.Crowds.{EachCrowd};
ghost use Rattle.mu_model_distributor_rows.specs.Progress.{EachProgress};
ghost use Rattle.mu_model_distributor_rows.specs.Runs.{Distributions, Uploads};
ghost use Rattle.mu_model_distributor_rows.specs.Tables.{EachPhase, EachUpload};

/// What each request does in each phase of a distribution and of an upload: its answer, the record count, the phases, and how many
/// receivers and images there are; and the most receivers that there may be.
pub fn each_request()
    ensures phases { EachPhase }
    ensures uploads { EachUpload }
    ensures crowds { EachCrowd }
{}

/// Distributions to two receivers that differ, and uploads.
pub fn runs()
    ensures distributions { Distributions }
    ensures uploads { Uploads }
{}

/// The banks that images and uploads take, and how far an upload is.
pub fn banks()
    ensures banks { EachBank }
    ensures progress { EachProgress }
{}
