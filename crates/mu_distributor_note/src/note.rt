// What a distributor keeps in its note.
ghost use Rattle.std.specs.Prelude.{◌≡◌};
ghost use Rattle.mu_model_distributor.specs.DistState.{dist_number};

use arrayvec::ArrayVec;
use mu_distributor_kept::UploadPhase;
use mu_image::Meta;
use mu_model_distributor::{DistPhase, Settings};

/// What the note says beside the receivers.
#[derive(Drop)]
pub struct NoteHead {
    pub phase: DistPhase,
    pub upload: UploadPhase,
    /// The images' banks, in the order in which they were stored.
    pub banks: ArrayVec<u8, 4>,
    /// How many distributions were started, below 2^48.
    pub counter: u64,
    /// Those of the last distribution.
    pub settings: Settings,
    pub upload_ttl: u8,
    pub upload_meta: Meta,
}

/// The phase of a distribution on the wire, 0 to 7.
pub(crate) fn phase_number(phase: DistPhase) -> u8
    ensures { result ≡ dist_number phase }
{
    match phase {
        DistPhase::Idle => 0,
        DistPhase::TransferActive => 1,
        DistPhase::TransferSuccess => 2,
        DistPhase::ApplyingUpdate => 3,
        DistPhase::Completed => 4,
        DistPhase::Failed => 5,
        DistPhase::CancelingUpdate => 6,
        DistPhase::TransferSuspended => 7,
    }
}
