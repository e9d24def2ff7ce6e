// What a Chunk Transfer does.
ghost use Rattle.std.specs.Prelude.{◌≡◌, ◌<◌, ◌==◌, length};
ghost use Rattle.mu_model_image.specs.Pieces.{block_length, chunk_length};
ghost use Rattle.mu_model_node.specs.BlobServer.{Server as ServerModel, Transfer, server_phase};
ghost use Rattle.mu_model_node.specs.BlobTable.{on_chunk_transfer};
ghost use Rattle.mu_model_node.specs.Sound.{IsComing, IsPhase};
ghost use Rattle.mu_reference.specs.View.{current_of, blob_phase_of};
ghost use Rattle.mu_reference.specs.BlobRows.{server_of, chunk_stepped, ReceivesWithin};

use crate::phases::{BlobPhase, Serving, blob_phase};
use crate::values::{CurrentBlock, Session};
use mu_arith::{block_len, chunk_len};
use mu_model_node::Parameters;

/// What the rows see.
#[derive(Clone, Copy)]
pub struct Server<'a> {
    /// Octets of a bank.
    pub capacity: u32,
    pub serving: Serving<'a>,
    pub session: &'a Session,
    /// The present moment, in milliseconds.
    pub now: u64,
}

/// What is done with a chunk.
#[derive(Clone, Copy)]
pub enum ChunkStep {
    PassOver,
    Hear,
    Receive(Parameters),
}

impl<'a> Server<'a> {
    /// The phase of the transfer.
    pub fn phase(self) -> BlobPhase<'a>
        ensures { blob_phase_of result ≡ server_phase (server_of self.entry) }
    {
        blob_phase(self.serving, self.session)
    }
}

fn has_length(parameters: Parameters, current: &CurrentBlock, chunk: u16, octets: usize) -> bool
    requires coming { (t : Transfer) × IsComing t parameters (current_of current.now) }
    requires within { chunk < length current.now.chunks }
    ensures { result ≡ (octets == chunk_length (block_length parameters.size parameters.log current.now.number) current.now.chunk_size chunk) }
{
    let block = block_len(parameters.size, parameters.log, current.number);
    octets == usize::from(chunk_len(block, current.chunk_size, chunk))
}

/// BLOB Chunk Transfer.
pub fn on_chunk_transfer<'a>(chunk: u16, octets: &[u8], phase: BlobPhase<'a>) -> ChunkStep
    requires { IsPhase (blob_phase_of phase) }
    ensures within { ReceivesWithin chunk (blob_phase_of phase.entry) result }
    ensures stepped { (v : ServerModel) → on_chunk_transfer v chunk octets.now (blob_phase_of phase.entry) ≡ chunk_stepped v chunk octets.now (blob_phase_of phase.entry) result }
{
    match phase {
        BlobPhase::NextChunk(_, parameters, current) => {
            if usize::from(chunk) >= current.chunks.len() {
                ChunkStep::PassOver
            } else if !has_length(parameters, current, chunk, octets.len()) {
                ChunkStep::PassOver
            } else if current.chunks.has(usize::from(chunk)) {
                ChunkStep::Hear
            } else {
                ChunkStep::Receive(parameters)
            }
        }
        _ => ChunkStep::PassOver,
    }
}
