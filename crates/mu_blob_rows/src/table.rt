// What a row of the table decides: what is to change, and what is told. A function for each message.
ghost use Rattle.std.specs.Prelude.{ℕ, ◌≡◌, ◌≤◌, List, length};
ghost use Rattle.mu_model_node.specs.Slots.{Slots};
ghost use Rattle.mu_model_node.specs.declared.Parameters.{Parameters};
ghost use Rattle.mu_model_node.specs.BlobMessages.{TransferGet, TransferStart, TransferCancel, BlockStart, BlockGet, ChunkTransfer};
ghost use Rattle.mu_model_node.specs.BlobTable.{on_blob};
ghost use Rattle.mu_blob_rows.specs.Looks.{server_with};
ghost use Rattle.mu_blob_rows.specs.declared.table.BlocksLook.{BlocksLook};
ghost use Rattle.mu_blob_rows.specs.Rows.{ChangeFits, told_by, block_told_by, BlocksLookSo, SessionFits, OpensThis, ReportFits, ChunkLooksSo, chunk_stepped, ChunkStepFits};

use crate::deciding::{
    decide_block_get, decide_block_start, decide_cancel, decide_chunk, decide_start,
};
use crate::looks::Look;
use crate::session::{LinkChange, SessionChange};
use mu_model_node::Parameters;

/// What a row does to what is kept of the transfer.
#[derive(Clone, Copy)]
pub enum TransferChange {
    Nothing,
    /// The bank is begun with the parameters that the message has.
    Begin,
    /// Parameters and held blocks go.
    Drop,
}

/// What a row of Transfer Start or Transfer Cancel does, and the status that is told.
#[derive(Clone, Copy)]
pub struct Told {
    pub link: LinkChange,
    pub change: TransferChange,
    pub status: u8,
}

/// Which chunks a Block Status reports as missing.
#[derive(Clone, Copy)]
pub enum ReportTold {
    All,
    Nothing,
    /// Those that are missing of the block that comes.
    Missing,
}

/// What a row of Block Start or Block Get does, and the Block Status that is told.
#[derive(Clone, Copy)]
pub struct BlockTold {
    pub session: SessionChange,
    pub status: u8,
    pub block: u16,
    pub chunk_size: u16,
    pub report: ReportTold,
}

/// What a Block Start looks at of a transfer's blocks.
#[derive(Clone, Copy)]
pub struct BlocksLook {
    /// How many blocks there are.
    pub count: u16,
    /// Whether the block that is asked for is held.
    pub is_held: bool,
}

/// What a Chunk Transfer looks at of a chunk that is one of the block's.
#[derive(Clone, Copy)]
pub struct ChunkLook {
    /// How many octets it has.
    pub octets: u16,
    /// Whether it was received before.
    pub is_received: bool,
}

/// What is done with a chunk.
#[derive(Clone, Copy)]
pub enum ChunkStep {
    PassOver,
    Hear,
    /// It is received, in a transfer with these parameters.
    Receive(Parameters),
}

impl<'a> Look<'a> {
    /// BLOB Transfer Get.
    pub fn transfer_get(self) -> Told
        ensures known { result.status ≤ 7 }
        ensures fits { (p : Parameters) → ChangeFits self.entry.serving self.entry.capacity p result.change }
        ensures told { (held chunks : Slots) (to : ℕ) (p : Parameters) → on_blob (server_with self.entry held chunks) to TransferGet ≡ told_by (server_with self.entry held chunks) to p result }
    {
        Told {
            link: LinkChange::Keeps,
            change: TransferChange::Nothing,
            status: 0,
        }
    }

    /// BLOB Transfer Start.
    pub fn transfer_start(self, id: u64, parameters: Parameters) -> Told
        ensures known { result.status ≤ 7 }
        ensures fits { ChangeFits self.entry.serving self.entry.capacity parameters result.change }
        ensures told { (held chunks : Slots) (to : ℕ) → on_blob (server_with self.entry held chunks) to (TransferStart id parameters) ≡ told_by (server_with self.entry held chunks) to parameters result }
    {
        decide_start(self, id, parameters, self.phase())
    }

    /// BLOB Transfer Cancel.
    pub fn transfer_cancel(self, id: u64) -> Told
        ensures known { result.status ≤ 7 }
        ensures fits { (p : Parameters) → ChangeFits self.entry.serving self.entry.capacity p result.change }
        ensures told { (held chunks : Slots) (to : ℕ) (p : Parameters) → on_blob (server_with self.entry held chunks) to (TransferCancel id) ≡ told_by (server_with self.entry held chunks) to p result }
    {
        decide_cancel(self, id)
    }

    /// BLOB Block Start.
    pub fn block_start(self, block: u16, chunk_size: u16, blocks: BlocksLook) -> BlockTold
        ensures known { result.status ≤ 7 }
        ensures report { ReportFits self.entry result.report }
        ensures opens { OpensThis block result.session }
        ensures session { SessionFits self.entry blocks result.session }
        ensures told { (held chunks : Slots) (to : ℕ) → BlocksLookSo held block blocks → on_blob (server_with self.entry held chunks) to (BlockStart block chunk_size) ≡ block_told_by (server_with self.entry held chunks) to chunks result }
    {
        decide_block_start(self, block, chunk_size, blocks, self.phase())
    }

    /// BLOB Block Get.
    pub fn block_get(self) -> BlockTold
        ensures known { result.status ≤ 7 }
        ensures report { ReportFits self.entry result.report }
        ensures session { (blocks : BlocksLook) → SessionFits self.entry blocks result.session }
        ensures told { (held chunks : Slots) (to : ℕ) → on_blob (server_with self.entry held chunks) to BlockGet ≡ block_told_by (server_with self.entry held chunks) to chunks result }
    {
        decide_block_get(self, self.phase())
    }

    /// BLOB Chunk Transfer of so many octets. `look` is none where the block that comes has no such chunk, or none comes.
    pub fn chunk_transfer(self, look: Option<ChunkLook>, octets: usize) -> ChunkStep
        ensures fits { ChunkStepFits self.entry look octets result }
        ensures stepped { (held chunks : Slots) (to chunk : ℕ) (all : List ℕ) → length all ≡ octets → ChunkLooksSo self.entry chunk chunks look
            → on_blob (server_with self.entry held chunks) to (ChunkTransfer chunk all) ≡ chunk_stepped (server_with self.entry held chunks) chunk all result }
    {
        decide_chunk(self, look, octets, self.phase())
    }
}
