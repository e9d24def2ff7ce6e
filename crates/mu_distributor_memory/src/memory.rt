// What is in memory, and what requests come to.
ghost use Rattle.std.specs.Prelude.{◌≡◌};
ghost use Rattle.mu_distributor_rows.specs.Looks.{seen};
ghost use Rattle.mu_distributor_memory.specs.Sound.{IsKept, kept_prop};
ghost use Rattle.mu_distributor_memory.specs.Looks.{look_seen};

use mu_distributor_answers::{Decision, DistRequest, decide};
use mu_distributor_note::{NoteHead, ReceiverRow, Rows, UploadPhase};
use mu_distributor_rows::{DistAnswer, DistLook, UploadLook, has_bank};
use mu_image::Meta;
use mu_model_distributor::DistPhase;

/// What a distributor has in memory of its record, and the progress of its receivers. The octets of a bank and the job of the upload are its
/// BLOB server's. About 1.3 KB.
#[derive(Drop)]
pub struct Memory {
    pub(crate) head: NoteHead,
    pub(crate) rows: Rows,
    // As many as there are banks are those of the images, in their order.
    pub(crate) metas: [Meta; 4],
    // Whether the record says that an upload is active that was broken off.
    pub(crate) lags: bool,
    ghost kept: { IsKept head rows.items } by { kept_prop head rows.items },
}

fn look_of<'a>(
    head: &'a NoteHead,
    metas: &'a [Meta; 4],
    lags: bool,
    receivers: u16,
    of: (u32, Option<UploadLook>),
) -> DistLook<'a>
    ensures { seen result ≡ look_seen head.now metas.now lags receivers of.0 of.1 }
{
    let banks = head.banks.as_slice();
    DistLook {
        capacity: of.0,
        phase: head.phase,
        counter: head.counter,
        settings: head.settings,
        receivers,
        banks,
        metas: &metas[..banks.len()],
        recorded: head.upload,
        lags,
        job: of.1,
        upload_ttl: head.upload_ttl,
        upload_meta: head.upload_meta,
    }
}

impl Memory {
    ghost use Rattle.std.specs.Prelude.{◌≡◌, ◌≤◌, ◌<◌, ◌*◌, ◌^◌, length, map};
    ghost use Rattle.mu_model_distributor.specs.DistState.{DistState, run_upload};
    ghost use Rattle.mu_model_distributor.specs.Sound.{DistRequestFits};
    ghost use Rattle.mu_model_represents.specs.Images.{is_among};
    ghost use Rattle.mu_distributor_rows.specs.Decided.{is_in_part};
    ghost use Rattle.mu_distributor_rows.specs.Fits.{IsPercent};
    ghost use Rattle.mu_distributor_rows.specs.Looks.{seen, LooksAs, meta_of, phase_of};
    ghost use Rattle.mu_distributor_answers.specs.Fits.{HasFirmwareId};
    ghost use Rattle.mu_distributor_answers.specs.Messages.{dist_request_of};
    ghost use Rattle.mu_distributor_answers.specs.Steps.{shown_to};
    ghost use Rattle.mu_distributor_memory.specs.Shows.{rows_in, upload_in, banks_in, seen_in, IsHeadBy, IsHeadOf, IsMemoryOf, IsBeside, IsDecided};
    ghost use Rattle.mu_distributor_memory.specs.Sound.{IsKept};

    /// What a note says, with the metadata of its images in their order, and whether its upload was broken off since.
    pub fn new(head: NoteHead, rows: Rows, metas: [Meta; 4], lags: bool) -> Memory
        requires { IsKept head rows.items }
        ensures head { (s : DistState) → IsHeadBy head metas lags s → IsHeadOf result s }
        ensures rows { rows_in result ≡ rows.items }
        ensures upload { upload_in result ≡ head.upload }
    {
        Memory {
            head,
            rows,
            metas,
            lags,
        }
    }

    /// The phase of the distribution.
    pub fn phase(&self) -> DistPhase
        ensures { (s : DistState) → IsHeadOf self.now s → result ≡ s.durable.phase }
    {
        self.head.phase
    }

    /// The phase of the upload in the run.
    pub fn upload_phase(&self) -> UploadPhase
        ensures run { (s : DistState) → IsHeadOf self.now s → result ≡ phase_of (run_upload s) }
        ensures part { is_in_part result ≡ is_in_part (upload_in self.now) }
    {
        match self.head.upload {
            UploadPhase::TransferActive if self.lags => UploadPhase::TransferError,
            phase => phase,
        }
    }

    /// The receivers, with their progress in per cent.
    pub fn rows(&self) -> &[ReceiverRow]
        ensures rows { result.now ≡ rows_in self.now }
        ensures few { length result.now ≤ 128 }
    {
        self.rows.as_slice()
    }

    /// The metadata of the images, in the order in which they were stored.
    pub fn images(&self) -> &[Meta]
        ensures few { length result.now ≤ 4 }
        ensures metas { (s : DistState) → IsHeadOf self.now s → result.now ≡ map meta_of s.durable.images }
    {
        &self.metas[..self.head.banks.len()]
    }

    /// Whether an image stands in a bank.
    pub fn has_bank(&self, bank: u8) -> bool
        ensures { result ≡ is_among (banks_in self.now) bank }
    {
        has_bank(self.head.banks.as_slice(), bank)
    }

    /// How many distributions were started.
    pub fn counter(&self) -> u64
        ensures { (s : DistState) → IsHeadOf self.now s → result ≡ s.durable.counter }
    {
        self.head.counter
    }

    /// What the rows of the table look at, with the octets of a bank and the job of the upload.
    pub fn look<'a>(&'a self, capacity: u32, job: Option<UploadLook>) -> DistLook<'a>
        ensures seen { seen result ≡ seen_in self.now capacity job }
        ensures looks { (s : DistState) → IsMemoryOf self.now s → IsBeside capacity job s → LooksAs result s }
    {
        let receivers = self.rows.len() as u16;
        look_of(
            &self.head,
            &self.metas,
            self.lags,
            receivers,
            (capacity, job),
        )
    }

    /// What a request comes to: receivers are added and deleted at once, and all else that changes is the step that is handed back.
    pub fn decide<'a>(
        &mut self,
        capacity: u32,
        job: Option<UploadLook>,
        request: &DistRequest<'a>,
    ) -> Decision<'a>
        requires { DistRequestFits (dist_request_of request.now) }
        ensures { IsDecided self.old self.new capacity job (dist_request_of request.now) result }
    {
        let receivers = self.rows.len() as u16;
        let look = look_of(
            &self.head,
            &self.metas,
            self.lags,
            receivers,
            (capacity, job),
        );
        decide(look, &mut self.rows, request)
    }

    /// The answer to a request, with the status of its step, over what is in memory once the step is done.
    pub fn answer<'a>(
        &self,
        capacity: u32,
        job: Option<UploadLook>,
        request: &DistRequest<'a>,
        status: u8,
    ) -> DistAnswer
        requires known { status ≤ 13 }
        requires id { HasFirmwareId request.now }
        requires capacity { 4 * capacity < 2 ^ 32 }
        requires progress { IsPercent job }
        ensures { (s : DistState) → IsMemoryOf self.now s → IsBeside capacity job s → result ≡ shown_to (dist_request_of request.now) status s }
    {
        mu_distributor_answers::answer(self.look(capacity, job), self.rows(), request, status)
    }
}
