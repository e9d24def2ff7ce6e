// What the rows look at of a distributor.
ghost use Rattle.std.specs.Prelude.{◌≡◌};
ghost use Rattle.mu_model_distributor.specs.DistState.{DistState, run_upload, is_at_rest};
ghost use Rattle.mu_distributor_rows.specs.Looks.{seen, LooksAs, phase_of, run_phase};

use mu_distributor_kept::UploadPhase;
use mu_image::Meta;
use mu_model_distributor::{DistPhase, Settings};

/// What the rows look at of the job of an upload.
#[derive(Clone, Copy)]
pub struct UploadLook {
    /// The BLOB ID.
    pub id: u64,
    /// Octets of the image.
    pub size: u32,
    /// The Timeout Base.
    pub base: u16,
    pub bank: u8,
    /// Whether its transfer was begun.
    pub has_parameters: bool,
    /// The per cent of blocks held.
    pub progress: u8,
}

/// What the rows look at of a distributor.
#[derive(Clone, Copy)]
pub struct DistLook<'a> {
    /// Octets of a bank.
    pub capacity: u32,
    pub phase: DistPhase,
    /// How many distributions were started.
    pub counter: u64,
    /// Those of the last distribution.
    pub settings: Settings,
    /// How many receivers there are.
    pub receivers: u16,
    /// The banks of the images, in the order in which they were stored.
    pub banks: &'a [u8],
    /// The metadata of the images, in the same order.
    pub metas: &'a [Meta],
    /// The phase of the upload in the record.
    pub recorded: UploadPhase,
    /// Whether the record says that an upload is active that was broken off.
    pub lags: bool,
    pub job: Option<UploadLook>,
    pub upload_ttl: u8,
    pub upload_meta: Meta,
}

/// Whether there is no distribution in this phase: Idle, Completed and Failed.
pub fn is_at_rest(phase: DistPhase) -> bool
    ensures { result ≡ is_at_rest phase }
{
    match phase {
        DistPhase::Idle | DistPhase::Completed | DistPhase::Failed => true,
        _ => false,
    }
}

pub(crate) fn run_phase(recorded: UploadPhase, lags: bool) -> UploadPhase
    ensures { result ≡ run_phase lags recorded }
{
    match recorded {
        UploadPhase::TransferActive if lags => UploadPhase::TransferError,
        _ => recorded,
    }
}

/// The phase of the upload in the run.
pub fn upload_phase<'a>(look: DistLook<'a>) -> UploadPhase
    ensures { (s : DistState) → LooksAs look.entry s → result ≡ phase_of (run_upload s) }
{
    run_phase(look.recorded, look.lags)
}
