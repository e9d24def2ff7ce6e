// What an event comes to at a node.
ghost use Rattle.std.specs.Prelude.{◌≡◌, [], ◌∷◌};
ghost use Rattle.mu_model_node.specs.BlobTable.{on_blob};
ghost use Rattle.mu_model_node.specs.UpdateTable.{on_update};
ghost use Rattle.mu_model_node.specs.Events.{on_request};
ghost use Rattle.mu_model_node.specs.NodeMessages.{ByUpdate};
ghost use Rattle.mu_model_node.specs.NodeState.{server_of};
ghost use Rattle.mu_model_node.specs.Sound.{BlobRequestFits, RequestFits, IsNodeState};
ghost use Rattle.mu_reference.specs.View.{state_of};
ghost use Rattle.mu_reference.specs.Messages.{request_of};
ghost use Rattle.mu_update_rows.specs.Messages.{update_request_of};
ghost use Rattle.mu_blob_answers.specs.Messages.{blob_request_of};
ghost use Rattle.mu_reference.specs.Outcomes.{ServedAs};
ghost use Rattle.mu_reference.specs.UpdateRows.{UpdatedAs};
ghost use Rattle.mu_reference.specs.NodeRows.{DoneAs, replies_of};

use crate::blob_events::Served;
use crate::messages::{BlobAnswer, BlobRequest, Request, UpdateAnswer, UpdateRequest};
use crate::node_time::serving;
use crate::recording::Stop;
use crate::update_table::Updated;
use crate::values::State;
use mu_model_node::FlashWork;
use std::alloc::Global;

/// What a node answers.
#[derive(Drop)]
pub enum Reply {
    Updating(UpdateAnswer),
    Serving(BlobAnswer),
}

/// What came of an event.
#[derive(Drop)]
pub struct Done {
    /// The reply, with its destination.
    pub reply: Option<(u16, Reply)>,
    pub work: FlashWork,
}

impl State {
    /// A BLOB message of a source.
    pub fn on_blob<'a>(
        &mut self,
        alloc: Global,
        from: u16,
        request: BlobRequest<'a>,
    ) -> Result<Served, Stop>
        requires sound { IsNodeState (state_of self.old) }
        requires fits { BlobRequestFits (blob_request_of request) }
        ensures { ServedAs (state_of self.old) (on_blob (server_of (state_of self.old)) from (blob_request_of request.entry)) result (state_of self.new) }
    {
        match request {
            BlobRequest::BlobInformationGet => Ok(self.on_blob_information_get(from)),
            BlobRequest::TransferGet => Ok(self.on_transfer_get(from)),
            BlobRequest::TransferStart { id, parameters } => {
                self.on_transfer_start(alloc, from, id, parameters)
            }
            BlobRequest::TransferCancel { id } => self.on_transfer_cancel(alloc, from, id),
            BlobRequest::BlockStart { block, chunk_size } => {
                self.on_block_start(alloc, from, block, chunk_size)
            }
            BlobRequest::BlockGet => self.on_block_get(alloc, from),
            BlobRequest::ChunkTransfer { chunk, octets } => {
                self.on_chunk_transfer(alloc, from, chunk, octets)
            }
        }
    }
}

impl State {
    /// An update message of a source.
    pub fn on_update<'a>(
        &mut self,
        alloc: Global,
        from: u16,
        request: UpdateRequest<'a>,
    ) -> Result<Updated, Stop>
        requires { IsNodeState (state_of self.old) }
        ensures { UpdatedAs (state_of self.old) from (on_update (state_of self.old) from (update_request_of request.entry)) result (state_of self.new) }
    {
        match request {
            UpdateRequest::InformationGet { first, limit } => Ok(self.on_information_get(
                from, first, limit,
            )),
            UpdateRequest::MetadataCheck { index, metadata } => Ok(self.on_metadata_check(
                from, index, metadata,
            )),
            UpdateRequest::UpdateGet => Ok(self.on_update_get(from)),
            UpdateRequest::StartUpdate(asked) => self.on_update_start(alloc, from, asked),
            UpdateRequest::UpdateCancel => self.on_update_cancel(from),
            UpdateRequest::UpdateApply => self.on_update_apply(from),
        }
    }

    /// A message of a source.
    pub fn take_request<'a>(
        &mut self,
        alloc: Global,
        from: u16,
        request: Request<'a>,
    ) -> Result<Done, Stop>
        requires sound { IsNodeState (state_of self.old) }
        requires fits { RequestFits (request_of request) }
        ensures { DoneAs (state_of self.old) (on_request (state_of self.old) from (request_of request.entry)) result (state_of self.new) }
    {
        match request {
            Request::Update(request) => Ok(updating(from, self.on_update(alloc, from, request)?)),
            Request::Blob(request) => Ok(serving(self.on_blob(alloc, from, request)?)),
        }
    }
}

/// What the update table did.
pub fn updating(to: u16, done: Updated) -> Done
    ensures replies { replies_of result.reply ≡ (to, ByUpdate done.reply) ∷ [] }
    ensures work { result.work ≡ done.work }
{
    let Updated { reply, work } = done;
    Done {
        reply: Some((to, Reply::Updating(reply))),
        work,
    }
}
