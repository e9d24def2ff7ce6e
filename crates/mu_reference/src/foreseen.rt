// What an event will do to the flash, without doing it.
ghost use Rattle.std.specs.Prelude.{ℕ, ◌≡◌, ◌≤◌, ◌^◌, IfOk};
ghost use Rattle.mu_model_node.specs.declared.Parameters.{Parameters};
ghost use Rattle.mu_model_node.specs.BlobTable.{on_blob, on_server_time};
ghost use Rattle.mu_model_node.specs.BlobMessages.{ChunkTransfer};
ghost use Rattle.mu_model_node.specs.UpdateMessages.{StartUpdate};
ghost use Rattle.mu_model_node.specs.UpdateTable.{on_update};
ghost use Rattle.mu_model_node.specs.TimeTable.{on_time};
ghost use Rattle.mu_model_node.specs.Events.{on_request};
ghost use Rattle.mu_model_node.specs.NodeState.{server_of, update_phase};
ghost use Rattle.mu_model_node.specs.NodeOutcome.{work_of, served};
ghost use Rattle.mu_model_node.specs.Laws.{pages_put};
ghost use Rattle.mu_model_node.specs.Sound.{IsNodeState};
ghost use Rattle.mu_reference.specs.View.{state_of};
ghost use Rattle.mu_reference.specs.BlobRows.{received_by, HasPlace};
ghost use Rattle.mu_blob_rows.specs.Rows.{change_by};
ghost use Rattle.mu_reference.specs.UpdateRows.{update_stepped};
ghost use Rattle.mu_reference.specs.Messages.{request_of};
ghost use Rattle.mu_update_rows.specs.Messages.{update_request_of, update_start_of};
ghost use Rattle.mu_blob_answers.specs.Messages.{blob_request_of};

use crate::blob_table::ChunkStep;
use crate::chunks::pages_of;
use crate::messages::{BlobRequest, Request, UpdateRequest, UpdateStart};
use crate::node_time::TimeKind;
use crate::timing::TimeStep;
use crate::update_table::UpdateStep;
use crate::values::State;
use mu_blob_rows::TransferChange;
use mu_model_node::FlashWork;
use mu_model_node::laws::{chunks_are_of_the_job, states_are_sound};
use std::alloc::{AllocError, Global};

fn work_of(change: TransferChange) -> FlashWork
    ensures few { pages_put result ≤ 2 ^ 53 }
    ensures work { (p : Parameters) → result ≡ work_of (change_by p change) }
{
    match change {
        TransferChange::Nothing => FlashWork::Untouched,
        TransferChange::Begin => FlashWork::Begun { is_long: false },
        TransferChange::Drop => FlashWork::Recorded { is_long: false },
    }
}

impl State {
    fn received_work(
        &self,
        alloc: Global,
        chunk: u16,
        octets: &[u8],
    ) -> Result<FlashWork, AllocError>
        requires { HasPlace chunk (state_of self.now).session.current (state_of self.now).durable.job }
        ensures few { IfOk result (λ work. pages_put work ≤ 2 ^ 53) }
        ensures work { IfOk result (λ work. (p : Parameters) → work ≡ work_of (received_by (state_of self.now) p chunk octets.now).change) }
    {
        match self.last_chunk(alloc, chunk, octets)? {
            None => Ok(FlashWork::Untouched),
            Some(block) => Ok(FlashWork::PutBlock {
                pages: pages_of(block.len()),
            }),
        }
    }

    fn chunk_work(&self, alloc: Global, chunk: u16, octets: &[u8]) -> Result<FlashWork, AllocError>
        requires { IsNodeState (state_of self.now) }
        ensures few { IfOk result (λ work. pages_put work ≤ 2 ^ 53) }
        ensures work { IfOk result (λ work. (from : ℕ) → work ≡ work_of (on_blob (server_of (state_of self.now)) from (ChunkTransfer chunk octets.now)).change) }
    {
        states_are_sound();
        chunks_are_of_the_job();
        match self.chunk_step(chunk, octets) {
            ChunkStep::PassOver => Ok(FlashWork::Untouched),
            ChunkStep::Hear => Ok(FlashWork::Untouched),
            ChunkStep::Receive(_) => self.received_work(alloc, chunk, octets),
        }
    }

    fn blob_work<'a>(
        &self,
        alloc: Global,
        request: BlobRequest<'a>,
    ) -> Result<FlashWork, AllocError>
        requires { IsNodeState (state_of self.now) }
        ensures few { IfOk result (λ work. pages_put work ≤ 2 ^ 53) }
        ensures work { IfOk result (λ work. (from : ℕ) → work ≡ work_of (on_blob (server_of (state_of self.now)) from (blob_request_of request.entry)).change) }
    {
        match request {
            BlobRequest::TransferStart { id, parameters } => {
                Ok(work_of(self.start_told(id, parameters).change))
            }
            BlobRequest::TransferCancel { id } => Ok(work_of(self.cancel_told(id).change)),
            BlobRequest::ChunkTransfer { chunk, octets } => self.chunk_work(alloc, chunk, octets),
            BlobRequest::BlobInformationGet
            | BlobRequest::TransferGet
            | BlobRequest::BlockStart { .. }
            | BlobRequest::BlockGet => Ok(FlashWork::Untouched),
        }
    }

    fn step_work(&self, step: UpdateStep) -> FlashWork
        ensures few { pages_put result ≤ 2 ^ 53 }
        ensures work { (from : ℕ) → result ≡ (update_stepped (state_of self.now) from step).work }
    {
        match step {
            UpdateStep::Lose => FlashWork::Recorded { is_long: false },
            UpdateStep::Apply => match &self.job {
                None => FlashWork::Untouched,
                Some(_) => FlashWork::Recorded { is_long: false },
            },
            UpdateStep::MakeReady | UpdateStep::Hear | UpdateStep::Answer(_) => {
                FlashWork::Untouched
            }
        }
    }

    fn start_work(&self, asked: UpdateStart) -> FlashWork
        ensures few { pages_put result ≤ 2 ^ 53 }
        ensures work { (from : ℕ) → result ≡ (on_update (state_of self.now) from (StartUpdate (update_start_of asked.entry))).work }
    {
        match self.start_step(asked) {
            Some(step) => self.step_work(step),
            None => match self.check(asked.index, asked.metadata) {
                Ok(_) => FlashWork::Recorded { is_long: false },
                Err(_) => FlashWork::Untouched,
            },
        }
    }

    fn update_work<'a>(&self, request: UpdateRequest<'a>) -> FlashWork
        ensures few { pages_put result ≤ 2 ^ 53 }
        ensures work { (from : ℕ) → result ≡ (on_update (state_of self.now) from (update_request_of request.entry)).work }
    {
        match request {
            UpdateRequest::StartUpdate(asked) => self.start_work(asked),
            UpdateRequest::UpdateCancel => self.step_work(self.cancel_step()),
            UpdateRequest::UpdateApply => self.step_work(self.apply_step()),
            UpdateRequest::InformationGet { .. }
            | UpdateRequest::MetadataCheck { .. }
            | UpdateRequest::UpdateGet => FlashWork::Untouched,
        }
    }

    /// What a message will do to the flash.
    pub fn request_work<'a>(
        &self,
        alloc: Global,
        request: Request<'a>,
    ) -> Result<FlashWork, AllocError>
        requires { IsNodeState (state_of self.now) }
        ensures few { IfOk result (λ work. pages_put work ≤ 2 ^ 53) }
        ensures work { IfOk result (λ work. (from : ℕ) → work ≡ (on_request (state_of self.now) from (request_of request.entry)).work) }
    {
        match request {
            Request::Update(request) => Ok(self.update_work(request)),
            Request::Blob(request) => self.blob_work(alloc, request),
        }
    }

    fn serving_work(&self) -> FlashWork
        requires { IsNodeState (state_of self.now) }
        ensures few { pages_put result ≤ 2 ^ 53 }
        ensures work { result ≡ (served (state_of self.now) (on_server_time (server_of (state_of self.now)) (server_of (state_of self.now)).serving)).work }
    {
        match self.time_step() {
            TimeStep::Wait => FlashWork::Untouched,
            TimeStep::Unlink => FlashWork::Untouched,
            TimeStep::Ask(_) => FlashWork::Untouched,
        }
    }

    /// What a time event will do to the flash.
    pub fn time_work(&self) -> FlashWork
        requires { IsNodeState (state_of self.now) }
        ensures few { pages_put result ≤ 2 ^ 53 }
        ensures work { result ≡ (on_time (state_of self.now) (update_phase (state_of self.now))).work }
    {
        match self.time_kind() {
            TimeKind::Serve => self.serving_work(),
            TimeKind::Activate | TimeKind::Verify => match &self.job {
                None => FlashWork::Untouched,
                Some(_) => FlashWork::Recorded { is_long: false },
            },
        }
    }
}
