// Uploads: a function for each request.
ghost use Rattle.std.specs.Prelude.{◌≡◌, ◌<◌, ◌≤◌, ℕ, length, bytes_eq, slice_index};
ghost use Rattle.std.specs.Option.{option_map};
ghost use Rattle.mu_model_node.specs.UpdateTable.{same_meta};
ghost use Rattle.mu_model_distributor.specs.DistState.{DistState, run_upload};
ghost use Rattle.mu_model_distributor.specs.Uploads.{percent, own_id, offered_meta, upload_start, upload_status, upload_cancel};
ghost use Rattle.mu_model_represents_distributor.specs.DistributorNote.{upload_phase_number};
ghost use Rattle.mu_distributor_kept.specs.Views.{upload_phase};
ghost use Rattle.mu_distributor_rows.specs.Due.{IsDue, IsDueIn};
ghost use Rattle.mu_distributor_rows.specs.Looks.{seen, LooksAs};
ghost use Rattle.mu_distributor_rows.specs.Messages.{upload_start_of};
ghost use Rattle.mu_distributor_rows.specs.Decided.{run_seen, same_start, has_meta, taken, taken_or_resumed, offered, started_at_rest, started_in, upload_started, progress_seen, shown_seen, is_some_upload, storing_changes, resuming_changes, step_changes};
ghost use Rattle.mu_distributor_rows.specs.Rows.{upload_stepped};
ghost use Rattle.mu_distributor_rows.specs.Replies.{shown_upload_of, ShowsUpload};
ghost use Rattle.mu_distributor_rows.specs.Fits.{IsKnownUpload, CanUpload, IsUploadWritten, IsPercent};

use crate::banks::lowest_free;
use crate::looks::{DistLook, UploadLook, is_at_rest, run_phase};
use crate::replies::{DistAnswer, DistReply, ShownUpload};
use mu_distributor_kept::UploadPhase;
use mu_image::{Fwid, Meta, fwid_of, meta_from, meta_octets};
use mu_model_image::laws::metadata;

/// What a Firmware Distribution Upload Start asks for.
#[derive(Clone, Copy)]
pub struct UploadStart<'a> {
    pub ttl: u8,
    /// The Timeout Base.
    pub base: u16,
    /// The BLOB ID.
    pub id: u64,
    /// Octets of the image.
    pub size: u32,
    pub metadata: &'a [u8],
    pub fwid: &'a [u8],
}

/// What an Upload Start does. What changes is answered with status 0.
#[derive(Clone, Copy)]
pub enum UploadStep {
    /// Nothing, and it is answered with status 0.
    Keep,
    /// The job goes on: the upload is active, its link is ready and was heard now.
    Resume,
    /// The image is stored: an earlier job goes, and the upload is a success with these metadata.
    Store(Meta),
    /// An earlier job goes, and the image comes into this bank.
    Take(Meta, u8),
    /// Nothing changes, and this status is answered.
    Refuse(u8),
}

/// The per cent of blocks held.
pub fn transfer_progress(held: u16, all: u16) -> u8
    requires some { 0 < all }
    requires within { held ≤ all }
    ensures progress { result ≡ percent held all }
    ensures most { result ≤ 100 }
{
    (100 * u32::from(held) / u32::from(all)) as u8
}

// The Firmware ID of an image of this project.
pub(crate) fn own_id(meta: &Meta) -> Fwid
    ensures id { result.items ≡ own_id meta.now }
    ensures long { 2 ≤ length result.items }
{
    fwid_of(0xFFFF, meta)
}

// The metadata that are offered: size and Firmware ID are theirs.
fn offered_meta(asked: UploadStart) -> Option<Meta>
    ensures { result ≡ offered_meta (upload_start_of asked.entry) }
{
    match meta_from(asked.metadata) {
        None => None,
        Some(meta) => {
            let id = own_id(&meta);
            if asked.size == meta.size && asked.fwid == id.as_slice() {
                Some(meta)
            } else {
                None
            }
        }
    }
}

fn is_same_start<'a>(look: DistLook<'a>, asked: UploadStart, job: UploadLook) -> bool
    ensures { result ≡ same_start (seen look.entry) (upload_start_of asked.entry) job }
{
    let metadata = meta_octets(&look.upload_meta);
    let id = own_id(&look.upload_meta);
    asked.ttl == look.upload_ttl
        && asked.base == job.base
        && asked.id == job.id
        && asked.size == job.size
        && asked.metadata == metadata.as_slice()
        && asked.fwid == id.as_slice()
}

fn is_named(meta: &Meta, id: &[u8]) -> bool
    ensures { result ≡ bytes_eq (own_id meta.now) id.now }
{
    let own = own_id(meta);
    own.as_slice() == id
}

fn is_stored(metas: &[Meta], meta: &Meta) -> bool
    ensures { result ≡ has_meta metas.now meta.now }
{
    let id = own_id(meta);
    let id = id.as_slice();
    metas.iter().any(|stored| is_named(stored, id))
}

fn take<'a>(look: DistLook<'a>, asked: UploadStart, meta: Meta) -> UploadStep
    ensures known { IsKnownUpload result }
    ensures step { result ≡ taken (seen look.entry) (upload_start_of asked.entry) meta }
{
    match lowest_free(look.banks) {
        Some(bank) if asked.size <= look.capacity => UploadStep::Take(meta, bank),
        _ => UploadStep::Refuse(1),
    }
}

fn take_or_resume<'a>(
    look: DistLook<'a>,
    asked: UploadStart,
    meta: Meta,
    phase: UploadPhase,
) -> UploadStep
    ensures known { IsKnownUpload result }
    ensures step { result ≡ taken_or_resumed (seen look.entry) (upload_start_of asked.entry) meta phase (seen look.entry).job }
{
    match (phase, look.job) {
        (UploadPhase::TransferError, Some(job)) if is_same_start(look, asked, job) => {
            UploadStep::Resume
        }
        _ => take(look, asked, meta),
    }
}

fn offer<'a>(look: DistLook<'a>, asked: UploadStart, phase: UploadPhase) -> UploadStep
    ensures known { IsKnownUpload result }
    ensures step { result ≡ offered (seen look.entry) (upload_start_of asked.entry) phase (seen look.entry).job (offered_meta (upload_start_of asked.entry)) }
{
    match offered_meta(asked) {
        None => UploadStep::Refuse(3),
        Some(meta) if is_stored(look.metas, &meta) => UploadStep::Store(meta),
        Some(meta) => take_or_resume(look, asked, meta, phase),
    }
}

fn start_at_rest<'a>(look: DistLook<'a>, asked: UploadStart, phase: UploadPhase) -> UploadStep
    ensures known { IsKnownUpload result }
    ensures step { result ≡ started_at_rest (seen look.entry) (upload_start_of asked.entry) phase (seen look.entry).job }
{
    if is_at_rest(look.phase) {
        offer(look, asked, phase)
    } else {
        UploadStep::Refuse(7)
    }
}

/// Firmware Distribution Upload Start, by the first rule that holds: 0 or 8 while an upload is active, 7 during a distribution, 3 where
/// metadata and ID aren't this project's, a stored image, an upload that is resumed, 1 where there is no room, a new job.
pub fn upload_start<'a>(look: DistLook<'a>, asked: UploadStart) -> UploadStep
    ensures known { IsKnownUpload result }
    ensures decided { result ≡ upload_started (seen look.entry) (upload_start_of asked.entry) }
    ensures can { CanUpload (seen look.entry) (upload_start_of asked.entry) result }
    ensures step { (s : DistState) → LooksAs look.entry s → upload_start s (upload_start_of asked.entry) (run_upload s) ≡ upload_stepped s (upload_start_of asked.entry) result }
{
    start(look, asked)
}

fn start<'a>(look: DistLook<'a>, asked: UploadStart) -> UploadStep
    ensures known { IsKnownUpload result }
    ensures step { result ≡ upload_started (seen look.entry) (upload_start_of asked.entry) }
{
    let phase = run_phase(look.recorded, look.lags);
    match (phase, look.job) {
        (UploadPhase::TransferActive, Some(job)) => {
            if is_same_start(look, asked, job) {
                UploadStep::Keep
            } else {
                UploadStep::Refuse(8)
            }
        }
        _ => start_at_rest(look, asked, phase),
    }
}

fn is_same_meta(a: &Meta, b: &Meta) -> bool
    ensures { result ≡ same_meta a.now b.now }
{
    a.size == b.size && a.version == b.version && a.digest == b.digest
}

fn storing_changes(recorded: UploadPhase, is_same_ttl: bool, is_same_meta: bool) -> bool
    ensures { result ≡ storing_changes recorded is_same_ttl is_same_meta }
{
    match recorded {
        UploadPhase::TransferSuccess => !(is_same_ttl && is_same_meta),
        _ => true,
    }
}

fn resuming_changes(recorded: UploadPhase) -> bool
    ensures { result ≡ resuming_changes recorded }
{
    match recorded {
        UploadPhase::TransferActive => false,
        _ => true,
    }
}

fn step_changes<'a>(look: DistLook<'a>, asked: UploadStart, step: UploadStep) -> bool
    ensures { result ≡ step_changes (seen look.entry) (upload_start_of asked.entry) step }
{
    match step {
        UploadStep::Keep | UploadStep::Refuse(_) => false,
        UploadStep::Resume => resuming_changes(look.recorded),
        UploadStep::Store(meta) => storing_changes(
            look.recorded,
            asked.ttl == look.upload_ttl,
            is_same_meta(&meta, &look.upload_meta),
        ),
        UploadStep::Take(_, _) => true,
    }
}

/// Numbers of octets are below 256.
fn are_octets(octets: &[u8])
    ensures { (i : ℕ) → slice_index octets.now i < 256 }
{}

/// Whether what is kept changes by what an Upload Start does, so that a record is due.
pub fn is_upload_due<'a>(look: DistLook<'a>, asked: UploadStart, step: UploadStep) -> bool
    requires { step ≡ upload_started (seen look) (upload_start_of asked) }
    ensures due { (s : DistState) → LooksAs look.entry s → IsDueIn result s (upload_stepped s (upload_start_of asked.entry) step) }
    ensures written { IsUploadWritten step result }
{
    metadata();
    are_octets(asked.metadata);
    step_changes(look, asked, step)
}

fn is_some_upload(phase: UploadPhase) -> bool
    ensures { result ≡ is_some_upload phase }
{
    match phase {
        UploadPhase::Idle => false,
        _ => true,
    }
}

/// Firmware Distribution Upload Cancel: the job goes, and the upload is Idle. Answers whether what is kept changes.
pub fn upload_cancel<'a>(look: DistLook<'a>) -> bool
    ensures { (s : DistState) → LooksAs look.entry s → IsDue result s.durable (upload_cancel s).durable }
{
    is_some_upload(look.recorded)
}

// The per cent that is shown of an upload.
fn progress(phase: UploadPhase, job: Option<UploadLook>) -> u8
    requires { IsPercent job }
    ensures progress { result ≡ progress_seen phase job }
    ensures most { result ≤ 100 }
{
    match (phase, job) {
        (UploadPhase::TransferSuccess, _) => 100,
        (_, Some(job)) => job.progress,
        (_, None) => 0,
    }
}

fn shown(phase: UploadPhase, job: Option<UploadLook>, meta: &Meta) -> Option<ShownUpload>
    requires { IsPercent job }
    ensures fits { ShowsUpload (upload_phase_number (upload_phase phase)) result }
    ensures shown { option_map shown_upload_of result ≡ shown_seen phase job meta.now }
{
    match phase {
        UploadPhase::Idle => None,
        _ => Some(ShownUpload {
            progress: progress(phase, job),
            fwid: own_id(meta),
        }),
    }
}

/// The Firmware Distribution Upload Status, which shows the upload as it stands. An Upload Start OOB is answered with status 9.
#[tactic(auto, using(crate::proofs::UploadRows::status_is))]
pub fn upload_answer<'a>(look: DistLook<'a>, status: u8) -> DistAnswer
    requires known { status ≤ 13 }
    requires progress { IsPercent look.job }
    ensures { (s : DistState) → LooksAs look.entry s → result ≡ upload_status status s }
{
    let phase = run_phase(look.recorded, look.lags);
    DistAnswer::new(DistReply::UploadStatus {
        status,
        phase: phase.number(),
        upload: shown(phase, look.job, &look.upload_meta),
    })
}
