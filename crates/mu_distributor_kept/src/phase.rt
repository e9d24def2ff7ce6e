ghost use Rattle.std.specs.Prelude.{◌≡◌};
ghost use Rattle.mu_model_represents_distributor.specs.DistributorNote.{upload_phase_number};

/// The phase of an upload (MshDFU, Upload Phase).
#[derive(Clone, Copy, Debug, PartialEq, Eq)]
pub enum UploadPhase {
    /// There is none.
    Idle,
    /// An image comes.
    TransferActive,
    /// What came was broken off, or isn't the image that was offered.
    TransferError,
    /// The image is stored.
    TransferSuccess,
}

impl UploadPhase {
    ghost use Rattle.mu_distributor_kept.specs.Views.{upload_phase};

    /// The phase on the wire, 0 to 3.
    pub fn number(self) -> u8
        ensures { result ≡ upload_phase_number (upload_phase self) }
    {
        match self {
            UploadPhase::Idle => 0,
            UploadPhase::TransferActive => 1,
            UploadPhase::TransferError => 2,
            UploadPhase::TransferSuccess => 3,
        }
    }
}
