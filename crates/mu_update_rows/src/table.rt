// The table: a function for each message, and for time.
ghost use Rattle.std.specs.Prelude.{ℕ, ◌≡◌, ◌≤◌, IfOk, IfErr};
ghost use Rattle.mu_model_image.specs.Meta.{meta_from};
ghost use Rattle.mu_model_node.specs.UpdateMessages.{MetadataStatus, StartUpdate, UpdateCancel, UpdateApply};
ghost use Rattle.mu_model_node.specs.NodeState.{NodeState, update_phase};
ghost use Rattle.mu_model_node.specs.UpdateTable.{status_of, update_status, check, on_update, same_meta};
ghost use Rattle.mu_model_node.specs.TimeTable.{on_time};
ghost use Rattle.mu_update_rows.specs.Looks.{LooksAs};
ghost use Rattle.mu_update_rows.specs.Messages.{update_start_of};
ghost use Rattle.mu_update_rows.specs.Fits.{IsKnown, IsTakenMeta, IsStepOf, IsTimeStepOf};
ghost use Rattle.mu_update_rows.specs.Rows.{update_stepped, time_stepped};
ghost use Rattle.mu_update_rows.specs.Decided.{same_seen, has_same, check_seen, taken, started, canceled, applied, timed, status_seen};

use crate::answer::UpdateAnswer;
use crate::look::{JobLook, NodeLook};
use crate::messages::{ShownJob, UpdateReply, UpdateStart};
use crate::phases::{Phase, phase_in};
use mu_image::{Meta, meta_from};
use mu_model_image::laws::metadata as metadata_is_in_range;

/// An update that is taken: its transfer has no parameters yet.
#[derive(Clone, Copy)]
pub struct NewJob {
    /// The BLOB ID.
    pub id: u64,
    /// The index of the image.
    pub index: u8,
    pub meta: Meta,
    pub ttl: u8,
    /// The Update Timeout Base.
    pub base: u16,
}

/// What a message does. What changes is answered with status 0 and the state after it.
#[derive(Clone, Copy)]
pub enum UpdateStep {
    /// The link is ready, and was heard now.
    MakeReady,
    /// The link was heard now.
    Hear,
    /// One record takes this update. The link is ready, with nothing of an earlier transfer.
    Take(NewJob),
    /// One record drops the update, and the link is cut.
    Lose,
    /// One record says that the update is to be applied.
    Apply,
    /// Nothing changes, and this status is answered.
    Answer(u8),
}

/// What a time event does.
#[derive(Clone, Copy)]
pub enum TimeStep {
    /// One record makes the new image the active one of its index and drops the update.
    Activate,
    /// One record says whether the new image fits its metadata.
    Judge,
    /// What the BLOB server does.
    Serve,
}

fn is_same_meta(a: &Meta, b: &Meta) -> bool
    ensures { result ≡ same_meta a.now b.now }
{
    a.size == b.size && a.version == b.version && a.digest == b.digest
}

fn is_same(asked: UpdateStart, job: &JobLook) -> bool
    ensures { result ≡ same_seen (update_start_of asked.entry) job.now }
{
    match meta_from(asked.metadata) {
        None => false,
        Some(meta) => {
            asked.ttl == job.ttl
                && asked.base == job.base
                && asked.id == job.id
                && asked.index == job.index
                && is_same_meta(&meta, &job.meta)
        }
    }
}

fn is_repeated(look: &NodeLook, asked: UpdateStart) -> bool
    ensures { result ≡ has_same (update_start_of asked.entry) look.now.job }
{
    match &look.job {
        None => false,
        Some(job) => is_same(asked, job),
    }
}

fn checked(look: &NodeLook, index: u8, metadata: &[u8]) -> Result<Meta, u8>
    ensures known { IfErr result (λ status. status ≤ 7) }
    ensures check { result ≡ check_seen look.now index metadata.now }
    ensures passed { IfOk result (λ meta. IsTakenMeta look.now index meta) }
{
    metadata_is_in_range();
    let Some(active) = look.active.get(index) else {
        return Err(4);
    };
    match meta_from(metadata) {
        Some(meta) if meta.size <= look.capacity && meta.version > active.version => Ok(meta),
        _ => Err(5),
    }
}

/// The metadata that are offered for an image, or the status that refuses them: 4 where there is no image of this index, 5 where
/// the octets are no metadata, the new image doesn't fit a bank, or its version isn't greater than that of the active one.
#[tactic(auto, using(crate::proofs::Checks::check_is))]
pub fn check(look: &NodeLook, index: u8, metadata: &[u8]) -> Result<Meta, u8>
    ensures known { IfErr result (λ status. status ≤ 7) }
    ensures check { (s : NodeState) → LooksAs look.now s → result ≡ check s.durable index metadata.now }
{
    checked(look, index, metadata)
}

fn take(look: &NodeLook, asked: UpdateStart) -> UpdateStep
    ensures known { IsKnown result }
    ensures of { IsStepOf look.now result }
    ensures step { result ≡ taken (update_start_of asked.entry) (check_seen look.now asked.entry.index asked.entry.metadata.now) }
{
    match checked(look, asked.index, asked.metadata) {
        Err(status) => UpdateStep::Answer(status),
        Ok(meta) => UpdateStep::Take(NewJob {
            id: asked.id,
            index: asked.index,
            meta,
            ttl: asked.ttl,
            base: asked.base,
        }),
    }
}

#[tactic(auto, using(crate::proofs::Said::started_of))]
fn start(look: &NodeLook, asked: UpdateStart) -> UpdateStep
    ensures known { IsKnown result }
    ensures of { IsStepOf look.now result }
    ensures step { result ≡ started look.now (update_start_of asked.entry) }
{
    match (phase_in(look), is_repeated(look, asked)) {
        (Phase::Idle | Phase::Failed, _) => take(look, asked),
        (Phase::TransferError, false) => take(look, asked),
        (Phase::TransferError, true) => UpdateStep::MakeReady,
        (Phase::TransferActive, true) => UpdateStep::Hear,
        (_, true) => UpdateStep::Answer(0),
        (_, false) => UpdateStep::Answer(2),
    }
}

/// What a Firmware Update Start does.
#[tactic(auto, using(crate::proofs::Steps::start_is))]
pub fn start_step(look: &NodeLook, asked: UpdateStart) -> UpdateStep
    ensures known { IsKnown result }
    ensures of { IsStepOf look.now result }
    ensures step { (s : NodeState) (to : ℕ) → LooksAs look.now s → on_update s to (StartUpdate (update_start_of asked.entry)) ≡ update_stepped s to result }
{
    start(look, asked)
}

fn cancel(phase: Phase) -> UpdateStep
    ensures known { IsKnown result }
    ensures step { result ≡ canceled phase }
{
    match phase {
        Phase::Idle => UpdateStep::Answer(0),
        Phase::Applying => UpdateStep::Answer(2),
        _ => UpdateStep::Lose,
    }
}

/// What a Firmware Update Cancel does.
#[tactic(auto, using(crate::proofs::Steps::cancel_is, crate::proofs::Said::canceled_of))]
pub fn cancel_step(look: &NodeLook) -> UpdateStep
    ensures known { IsKnown result }
    ensures of { IsStepOf look.now result }
    ensures step { (s : NodeState) (to : ℕ) → LooksAs look.now s → on_update s to UpdateCancel ≡ update_stepped s to result }
{
    cancel(phase_in(look))
}

fn apply(phase: Phase) -> UpdateStep
    ensures known { IsKnown result }
    ensures step { result ≡ applied phase }
{
    match phase {
        Phase::Succeeded => UpdateStep::Apply,
        Phase::Applying => UpdateStep::Answer(0),
        _ => UpdateStep::Answer(2),
    }
}

/// What a Firmware Update Apply does.
#[tactic(auto, using(crate::proofs::Steps::apply_is, crate::proofs::Said::applied_of))]
pub fn apply_step(look: &NodeLook) -> UpdateStep
    ensures known { IsKnown result }
    ensures of { IsStepOf look.now result }
    ensures step { (s : NodeState) (to : ℕ) → LooksAs look.now s → on_update s to UpdateApply ≡ update_stepped s to result }
{
    apply(phase_in(look))
}

fn at_time(phase: Phase) -> TimeStep
    ensures { result ≡ timed phase }
{
    match phase {
        Phase::Applying => TimeStep::Activate,
        Phase::Verifying => TimeStep::Judge,
        _ => TimeStep::Serve,
    }
}

/// What a time event does.
#[tactic(auto, using(crate::proofs::Steps::time_is, crate::proofs::Said::timed_of))]
pub fn time_step(look: &NodeLook) -> TimeStep
    ensures of { IsTimeStepOf look.now result }
    ensures step { (s : NodeState) → LooksAs look.now s → on_time s (update_phase s) ≡ time_stepped s result }
{
    at_time(phase_in(look))
}

fn shown(look: &NodeLook, status: u8) -> UpdateAnswer
    requires { status ≤ 7 }
    ensures { result ≡ status_seen status look.now.link look.now.job }
{
    match &look.job {
        None => UpdateAnswer::new(UpdateReply::UpdateStatus {
            status,
            phase: 0,
            job: None,
        }),
        Some(job) => UpdateAnswer::new(UpdateReply::UpdateStatus {
            status,
            phase: phase_in(look).number(),
            job: Some(ShownJob {
                ttl: job.ttl,
                base: job.base,
                id: job.id,
                index: job.index,
            }),
        }),
    }
}

/// The Firmware Update Status of a node.
#[tactic(auto, using(crate::proofs::Steps::status_is))]
pub fn update_answer(look: &NodeLook, status: u8) -> UpdateAnswer
    requires { status ≤ 7 }
    ensures { (s : NodeState) → LooksAs look.now s → result ≡ update_status status s }
{
    shown(look, status)
}

/// The Firmware Update Firmware Metadata Status that answers a check of these octets.
pub fn check_answer(look: &NodeLook, index: u8, metadata: &[u8]) -> UpdateAnswer
    ensures { (s : NodeState) → LooksAs look.now s → result ≡ MetadataStatus (status_of (check s.durable index metadata.now)) index }
{
    let status = match check(look, index, metadata) {
        Ok(_) => 0,
        Err(status) => status,
    };
    UpdateAnswer::new(UpdateReply::MetadataStatus { status, index })
}
