// The table of a Firmware Update Server: a function for each message.
ghost use Rattle.std.specs.Prelude.{ℕ, ◌≡◌, ◌<◌, ◌≤◌, false, IfErr, IfSome};
ghost use Rattle.mu_model_node.specs.BlobServer.{unlinked, made_ready};
ghost use Rattle.mu_model_node.specs.NodeOutcome.{with_session, with_job};
ghost use Rattle.mu_model_node.specs.Events.{last_count};
ghost use Rattle.mu_model_node.specs.NodeState.{update_phase, update_number};
ghost use Rattle.mu_model_node.specs.UpdateTable.{status_of, update_status, same_meta, same_start, new_job, check, without_job, takes, on_update, on_update_start, on_update_cancel, on_update_apply};
ghost use Rattle.mu_reference.specs.View.{job_of, state_of, update_phase_of};
ghost use Rattle.mu_model_node.specs.There.{there};
ghost use Rattle.mu_update_rows.specs.Messages.{update_start_of};
ghost use Rattle.mu_reference.specs.UpdateRows.{JobIs, UpdatedAs, update_stepped, start_stepped, marked_applied};
ghost use Rattle.mu_reference.specs.Fits.{IsKnown};
ghost use Rattle.mu_model_node.specs.UpdateMessages.{MetadataCheck, UpdateGet, StartUpdate, UpdateCancel, UpdateApply};

use crate::messages::{ShownJob, UpdateAnswer, UpdateReply, UpdateStart};
use crate::phases::{UpdatePhase, update_phase};
use crate::recording::Stop;
use crate::slots::Slots;
use crate::values::{Job, State};
use mu_image::{Meta, meta_from};
use mu_model_node::{FlashWork, Stored};
use std::alloc::Global;

/// What came of an update message.
#[derive(Drop)]
pub struct Updated {
    /// The reply to its source.
    pub reply: UpdateAnswer,
    pub work: FlashWork,
}

/// What a row of the table does.
#[derive(Clone, Copy)]
pub enum UpdateStep {
    MakeReady,
    Hear,
    Lose,
    Apply,
    Answer(u8),
}

fn number_of<'a>(phase: UpdatePhase<'a>) -> u8
    ensures { result ≡ update_number (update_phase_of phase.entry) }
{
    match phase {
        UpdatePhase::Idle => 0,
        UpdatePhase::TransferError(_) => 1,
        UpdatePhase::TransferActive(_) => 2,
        UpdatePhase::Verifying(_) => 3,
        UpdatePhase::Succeeded(_) => 4,
        UpdatePhase::Failed(_) => 5,
        UpdatePhase::Applying(_) => 6,
    }
}

fn is_same_meta(a: &Meta, b: &Meta) -> bool
    ensures { result ≡ same_meta a.now b.now }
{
    a.size == b.size && a.version == b.version && a.digest == b.digest
}

fn is_same_start(asked: UpdateStart, job: &Job) -> bool
    ensures { result ≡ same_start (update_start_of asked.entry) (job_of job.now) }
{
    match meta_from(asked.metadata) {
        None => false,
        Some(meta) => {
            asked.ttl == job.ttl
                && asked.base == job.base
                && asked.id == job.id
                && asked.index == job.index
                && is_same_meta(&meta, &job.meta)
        }
    }
}

fn status_of(checked: Result<Meta, u8>) -> u8
    requires { IfErr checked (λ status. status ≤ 7) }
    ensures known { result ≤ 7 }
    ensures is { result ≡ status_of checked }
{
    match checked {
        Ok(_) => 0,
        Err(status) => status,
    }
}

impl State {
    /// The phase of the update.
    pub fn update_phase<'a>(&'a self) -> UpdatePhase<'a>
        ensures phase { update_phase_of result ≡ update_phase (state_of self.now) }
        ensures job { JobIs (update_phase_of result) (state_of self.now).durable.job }
    {
        update_phase(&self.job, self.session.rest.link)
    }

    /// The phase of the update as it stands on the wire.
    pub fn phase_number(&self) -> u8
        ensures { result ≡ update_number (update_phase (state_of self.now)) }
    {
        number_of(self.update_phase())
    }

    /// The Update Status of the node.
    #[tactic(auto, using(crate::proofs::Shown::phase_with_job, crate::proofs::Shown::phase_below))]
    pub fn update_answer(&self, status: u8) -> UpdateAnswer
        requires { status ≤ 7 }
        ensures { result ≡ update_status status (state_of self.now) }
    {
        match &self.job {
            None => UpdateAnswer::new(UpdateReply::UpdateStatus {
                status,
                phase: 0,
                job: None,
            }),
            Some(job) => UpdateAnswer::new(UpdateReply::UpdateStatus {
                status,
                phase: number_of(self.update_phase()),
                job: Some(ShownJob {
                    ttl: job.ttl,
                    base: job.base,
                    id: job.id,
                    index: job.index,
                }),
            }),
        }
    }

    /// The metadata that are offered for an image, or the status that refuses them.
    pub fn check(&self, index: u8, metadata: &[u8]) -> Result<Meta, u8>
        ensures known { IfErr result (λ status. status ≤ 7) }
        ensures check { result ≡ check (state_of self.now).durable index metadata.now }
    {
        let Some(active) = self.images.get(usize::from(index)) else {
            return Err(4);
        };
        match meta_from(metadata) {
            Some(meta) if meta.size <= self.capacity && meta.version > active.meta.version => Ok(
                meta,
            ),
            _ => Err(5),
        }
    }

    /// What an Update Start does, or none where it may write a new job.
    pub fn start_step(&self, asked: UpdateStart) -> Option<UpdateStep>
        ensures known { IfSome result IsKnown }
        ensures step { (to : ℕ) → on_update_start (state_of self.now) to (update_start_of asked.entry) (update_phase (state_of self.now)) ≡ start_stepped (state_of self.now) to (update_start_of asked.entry) result }
    {
        match self.update_phase() {
            UpdatePhase::Idle | UpdatePhase::Failed(_) => None,
            UpdatePhase::TransferError(job) => {
                if is_same_start(asked, job) {
                    Some(UpdateStep::MakeReady)
                } else {
                    None
                }
            }
            UpdatePhase::TransferActive(job) => {
                if is_same_start(asked, job) {
                    Some(UpdateStep::Hear)
                } else {
                    Some(UpdateStep::Answer(2))
                }
            }
            UpdatePhase::Verifying(job)
            | UpdatePhase::Succeeded(job)
            | UpdatePhase::Applying(job) => {
                if is_same_start(asked, job) {
                    Some(UpdateStep::Answer(0))
                } else {
                    Some(UpdateStep::Answer(2))
                }
            }
        }
    }

    /// What an Update Cancel does.
    pub fn cancel_step(&self) -> UpdateStep
        ensures known { IsKnown result }
        ensures step { (to : ℕ) → on_update_cancel (state_of self.now) to (update_phase (state_of self.now)) ≡ update_stepped (state_of self.now) to result }
    {
        match self.update_phase() {
            UpdatePhase::Idle => UpdateStep::Answer(0),
            UpdatePhase::Applying(_) => UpdateStep::Answer(2),
            _ => UpdateStep::Lose,
        }
    }

    /// What an Update Apply does.
    pub fn apply_step(&self) -> UpdateStep
        ensures known { IsKnown result }
        ensures step { (to : ℕ) → on_update_apply (state_of self.now) to (update_phase (state_of self.now)) ≡ update_stepped (state_of self.now) to result }
    {
        match self.update_phase() {
            UpdatePhase::Succeeded(_) => UpdateStep::Apply,
            UpdatePhase::Applying(_) => UpdateStep::Answer(0),
            _ => UpdateStep::Answer(2),
        }
    }

    fn take(&mut self, alloc: Global, from: u16, asked: UpdateStart) -> Result<Updated, Stop>
        ensures { UpdatedAs (state_of self.old) from (takes (state_of self.old) from (update_start_of asked.entry)) result (state_of self.new) }
    {
        match self.check(asked.index, asked.metadata) {
            Err(status) => Ok(Updated {
                reply: self.update_answer(status),
                work: FlashWork::Untouched,
            }),
            Ok(_) if self.is_at_last_record() => Err(Stop::Worn),
            Ok(meta) => {
                self.write_job(alloc, asked, meta);
                Ok(Updated {
                    reply: self.update_answer(0),
                    work: FlashWork::Recorded { is_long: false },
                })
            }
        }
    }

    fn write_job(&mut self, alloc: Global, asked: UpdateStart, meta: Meta)
        requires { self.old.count < last_count }
        ensures { state_of self.new ≡ with_session (with_job (state_of self.old) (new_job (update_start_of asked.entry) meta)) (made_ready self.old.moment (unlinked (state_of self.old).session)) }
    {
        self.job = Some(Job {
            id: asked.id,
            index: asked.index,
            meta,
            ttl: asked.ttl,
            base: asked.base,
            stored: Stored::Filling,
            parameters: None,
            held: Slots::none(alloc),
        });
        self.record();
        self.session.unlink();
        let now = self.moment;
        self.session.make_ready(now);
    }

    fn lose(&mut self)
        requires { self.old.count < last_count }
        ensures { state_of self.new ≡ without_job (state_of self.old) }
    {
        self.job = None;
        self.record();
        self.session.unlink();
    }

    fn answer(&self, status: u8) -> Updated
        requires { status ≤ 7 }
        ensures reply { result.reply ≡ update_status status (state_of self.now) }
        ensures work { result.work ≡ FlashWork.Untouched }
    {
        Updated {
            reply: self.update_answer(status),
            work: FlashWork::Untouched,
        }
    }

    fn recorded_answer(&self) -> Updated
        ensures reply { result.reply ≡ update_status 0 (state_of self.now) }
        ensures work { result.work ≡ FlashWork.Recorded false }
    {
        Updated {
            reply: self.update_answer(0),
            work: FlashWork::Recorded { is_long: false },
        }
    }

    fn lose_counted(&mut self, from: u16) -> Result<Updated, Stop>
        ensures { UpdatedAs (state_of self.old) from (update_stepped (state_of self.old) from UpdateStep.Lose) result (state_of self.new) }
    {
        if self.is_at_last_record() {
            return Err(Stop::Worn);
        }
        self.lose();
        Ok(self.recorded_answer())
    }

    fn mark_applied(&mut self)
        requires { self.old.count < last_count }
        ensures { state_of self.new ≡ marked_applied (state_of self.old) (state_of self.old).durable.job }
    {
        if let Some(job) = &mut self.job {
            job.stored = Stored::Applied;
            self.record();
        }
    }

    fn apply_counted(&mut self, from: u16) -> Result<Updated, Stop>
        ensures { UpdatedAs (state_of self.old) from (update_stepped (state_of self.old) from UpdateStep.Apply) result (state_of self.new) }
    {
        if self.job.is_none() {
            return Ok(self.answer(0));
        }
        if self.is_at_last_record() {
            return Err(Stop::Worn);
        }
        self.mark_applied();
        Ok(self.recorded_answer())
    }

    fn do_step(&mut self, from: u16, step: UpdateStep) -> Result<Updated, Stop>
        requires { IsKnown step }
        ensures { UpdatedAs (state_of self.old) from (update_stepped (state_of self.old) from step) result (state_of self.new) }
    {
        match step {
            UpdateStep::MakeReady => {
                let now = self.moment;
                self.session.make_ready(now);
                Ok(self.answer(0))
            }
            UpdateStep::Hear => {
                self.session.rest.heard = self.moment;
                Ok(self.answer(0))
            }
            UpdateStep::Lose => self.lose_counted(from),
            UpdateStep::Apply => self.apply_counted(from),
            UpdateStep::Answer(status) => Ok(self.answer(status)),
        }
    }

    /// Firmware Update Start.
    pub fn on_update_start(
        &mut self,
        alloc: Global,
        from: u16,
        asked: UpdateStart,
    ) -> Result<Updated, Stop>
        ensures { UpdatedAs (state_of self.old) from (on_update (state_of self.old) from (StartUpdate (update_start_of asked.entry))) result (state_of self.new) }
    {
        match self.start_step(asked) {
            None => self.take(alloc, from, asked),
            Some(step) => self.do_step(from, step),
        }
    }

    /// Firmware Update Cancel.
    pub fn on_update_cancel(&mut self, from: u16) -> Result<Updated, Stop>
        ensures { UpdatedAs (state_of self.old) from (on_update (state_of self.old) from UpdateCancel) result (state_of self.new) }
    {
        let step = self.cancel_step();
        self.do_step(from, step)
    }

    /// Firmware Update Apply.
    pub fn on_update_apply(&mut self, from: u16) -> Result<Updated, Stop>
        ensures { UpdatedAs (state_of self.old) from (on_update (state_of self.old) from UpdateApply) result (state_of self.new) }
    {
        let step = self.apply_step();
        self.do_step(from, step)
    }

    /// Firmware Update Get.
    pub fn on_update_get(&self, from: u16) -> Updated
        ensures { UpdatedAs (state_of self.now) from (on_update (state_of self.now) from UpdateGet) (Ok result) (state_of self.now) }
    {
        self.answer(0)
    }

    /// Firmware Update Firmware Metadata Check.
    pub fn on_metadata_check(&self, from: u16, index: u8, metadata: &[u8]) -> Updated
        ensures { UpdatedAs (state_of self.now) from (on_update (state_of self.now) from (MetadataCheck index metadata.now)) (Ok result) (state_of self.now) }
    {
        let status = status_of(self.check(index, metadata));
        Updated {
            reply: UpdateAnswer::new(UpdateReply::MetadataStatus { status, index }),
            work: FlashWork::Untouched,
        }
    }
}
