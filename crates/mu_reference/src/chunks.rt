// What a node does with a chunk.
ghost use Rattle.std.specs.Prelude.{ℕ, ◌≡◌, ◌≤◌, ◌^◌, Ok, IfOk, None};
ghost use Rattle.mu_model_image.specs.Pieces.{piece_count};
ghost use Rattle.mu_model_node.specs.NodeState.{server_of, blob_phase};
ghost use Rattle.mu_model_node.specs.BlobMessages.{ChunkTransfer};
ghost use Rattle.mu_model_node.specs.BlobTable.{on_blob};
ghost use Rattle.mu_model_node.specs.Sound.{IsNodeState};
ghost use Rattle.mu_reference.specs.View.{state_of};
ghost use Rattle.mu_model_node.specs.There.{there};
ghost use Rattle.mu_reference.specs.BlobRows.{chunk_stepped, ReceivesWithin, completed_by, kept_by, received_by, HasBlock, HasPlace, IsLastChunk};
ghost use Rattle.mu_reference.specs.Outcomes.{ServedAs};

use crate::blob_events::Served;
use crate::blob_table::{ChunkStep, on_chunk_transfer};
use crate::recording::Stop;
use crate::slots::Octets;
use crate::values::State;
use arrayvec::ArrayVec;
use mu_blob_answers::partial_reply;
use mu_model_node::laws::{chunks_are_of_the_job, states_are_sound};
use mu_model_node::{FlashWork, LastBlock, Parameters};
use std::alloc::{AllocError, Global};

pub(crate) fn pages_of(octets: usize) -> usize
    ensures pages { result ≡ piece_count octets 4096 }
    ensures few { result ≤ 2 ^ 53 }
{
    octets / 4096 + usize::from(octets % 4096 != 0)
}

/// Nothing is answered, and nothing is written.
pub fn nothing() -> Served
    ensures { result ≡ record { reply = None; work = FlashWork.Untouched } }
{
    Served {
        reply: None,
        work: FlashWork::Untouched,
    }
}

impl State {
    /// The octets of the current block where this chunk is its last one.
    pub fn last_chunk(
        &self,
        alloc: Global,
        chunk: u16,
        octets: &[u8],
    ) -> Result<Option<Vec<u8>>, AllocError>
        requires { HasPlace chunk (state_of self.now).session.current (state_of self.now).durable.job }
        ensures { IfOk result (λ block. IsLastChunk chunk octets.now (state_of self.now).session.current (there (λ b. b.items) block)) }
    {
        let Some(current) = &self.session.current else {
            return Ok(None);
        };
        let place = usize::from(chunk);
        if !current.chunks.fills(place) {
            return Ok(None);
        }
        let block = current.chunks.joined_with(alloc, place, octets)?;
        Ok(Some(block))
    }

    /// All chunks are there: the block is held.
    fn complete(&mut self, parameters: Parameters, block: Vec<u8>) -> Served
        requires { HasBlock (state_of self.old).session.current (state_of self.old).durable.job }
        ensures { ServedAs (state_of self.old) (completed_by (state_of self.old) parameters block.items) (Ok result) (state_of self.new) }
    {
        let Some(current) = self.session.current.take() else {
            return nothing();
        };
        let pages = pages_of(block.len());
        if let Some(job) = &mut self.job {
            job.held
                .put(usize::from(current.number), Octets::new(block));
        }
        self.session.rest.last = Some(LastBlock {
            number: current.number,
            chunk_size: current.chunk_size,
        });
        self.session.rest.report = None;
        let reply = match self.session.rest.client {
            Some(client) if parameters.mode == 2 => Some((client, partial_reply(ArrayVec::new()))),
            _ => None,
        };
        Served {
            reply,
            work: FlashWork::PutBlock { pages },
        }
    }

    /// The current block has one more chunk, and not all.
    fn keep(&mut self, chunk: u16, piece: Octets)
        requires { HasPlace chunk (state_of self.old).session.current (state_of self.old).durable.job }
        ensures { state_of self.new ≡ kept_by (state_of self.old) chunk piece }
    {
        if let Some(current) = &mut self.session.current {
            current.chunks.put(usize::from(chunk), piece);
        }
    }

    /// A chunk is received.
    fn receive(
        &mut self,
        alloc: Global,
        parameters: Parameters,
        chunk: u16,
        octets: &[u8],
    ) -> Result<Served, Stop>
        requires { HasPlace chunk (state_of self.old).session.current (state_of self.old).durable.job }
        ensures { ServedAs (state_of self.old) (received_by (state_of self.old) parameters chunk octets.now) result (state_of self.new) }
    {
        let Ok(last) = self.last_chunk(alloc, chunk, octets) else {
            return Err(Stop::NoMemory);
        };
        if let Some(block) = last {
            self.session.rest.heard = self.moment;
            return Ok(self.complete(parameters, block));
        }
        let Ok(piece) = Vec::from_slice(alloc, octets) else {
            return Err(Stop::NoMemory);
        };
        self.session.rest.heard = self.moment;
        self.keep(chunk, Octets::new(piece));
        Ok(nothing())
    }

    /// What is done with a chunk.
    pub fn chunk_step(&self, chunk: u16, octets: &[u8]) -> ChunkStep
        requires { IsNodeState (state_of self.now) }
        ensures stepped { (from : ℕ) → on_blob (server_of (state_of self.now)) from (ChunkTransfer chunk octets.now) ≡ chunk_stepped (server_of (state_of self.now)) chunk octets.now (blob_phase (state_of self.now)) result }
        ensures within { ReceivesWithin chunk (blob_phase (state_of self.now)) result }
    {
        states_are_sound();
        on_chunk_transfer(chunk, octets, self.blob_phase())
    }

    /// BLOB Chunk Transfer.
    pub fn on_chunk_transfer(
        &mut self,
        alloc: Global,
        from: u16,
        chunk: u16,
        octets: &[u8],
    ) -> Result<Served, Stop>
        requires { IsNodeState (state_of self.old) }
        ensures { ServedAs (state_of self.old) (on_blob (server_of (state_of self.old)) from (ChunkTransfer chunk octets.now)) result (state_of self.new) }
    {
        states_are_sound();
        chunks_are_of_the_job();
        match self.chunk_step(chunk, octets) {
            ChunkStep::PassOver => Ok(nothing()),
            ChunkStep::Hear => {
                self.session.rest.heard = self.moment;
                Ok(nothing())
            }
            ChunkStep::Receive(parameters) => self.receive(alloc, parameters, chunk, octets),
        }
    }
}
