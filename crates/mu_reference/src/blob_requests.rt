// What a node does with each BLOB message.
ghost use Rattle.std.specs.Prelude.{ℕ, ◌≡◌, ◌≤◌};
ghost use Rattle.mu_model_node.specs.declared.Parameters.{Parameters};
ghost use Rattle.mu_model_node.specs.BlobMessages.{BlobInformationGet, TransferGet, TransferStart, TransferCancel, BlockStart, BlockGet, ChunkTransfer};
ghost use Rattle.mu_model_node.specs.BlobServer.{blob_number};
ghost use Rattle.mu_model_node.specs.BlobTable.{transfer_status, on_blob};
ghost use Rattle.mu_model_node.specs.NodeState.{server_of, blob_phase};
ghost use Rattle.mu_model_node.specs.Sound.{AreInRange, IsNodeState};
ghost use Rattle.mu_reference.specs.View.{state_of, blob_phase_of};
ghost use Rattle.mu_model_node.specs.Slots.{missing};
ghost use Rattle.mu_blob_answers.specs.Fits.{CanReport};
ghost use Rattle.mu_reference.specs.BlobRows.{chunks_by, OpensWithin};
ghost use Rattle.mu_blob_rows.specs.Rows.{told_by, block_told_by};
ghost use Rattle.mu_reference.specs.Outcomes.{BeginsWithin, ServedAs};

use crate::blob_events::Served;
use crate::messages::BlobAnswer;
use crate::phases::BlobPhase;
use crate::recording::Stop;
use crate::values::State;
use mu_blob_answers::{block_reply, information_reply, transfer_reply};
use mu_blob_rows::{BlockTold, Told};
use mu_model_node::laws::{states_are_sound, told_phase};
use mu_model_node::{FlashWork, Parameters};
use std::alloc::Global;

// A cancellation has no parameters.
const UNUSED: Parameters = Parameters {
    mode: 1,
    size: 1,
    log: 12,
    mtu: 20,
};

impl State {
    /// The phase of the transfer.
    #[tactic(auto, using(crate::proofs::Answered::phase_here, crate::proofs::Answered::phase_sound))]
    pub fn blob_phase<'a>(&'a self) -> BlobPhase<'a>
        ensures { blob_phase_of result ≡ blob_phase (state_of self.now) }
    {
        self.server().phase()
    }

    /// The phase of the transfer as it stands on the wire.
    pub fn blob_phase_number(&self) -> u8
        ensures { result ≡ blob_number (blob_phase (state_of self.now)) }
    {
        match self.blob_phase() {
            BlobPhase::Inactive => 0,
            BlobPhase::WaitingForStart(_) => 1,
            BlobPhase::NextBlock(..) => 2,
            BlobPhase::NextChunk(..) => 3,
            BlobPhase::Complete(_) => 4,
            BlobPhase::Suspended(..) => 5,
        }
    }

    /// The Transfer Status of the node.
    fn transfer_answer(&self, status: u8) -> BlobAnswer
        requires known { status ≤ 7 }
        requires sound { IsNodeState (state_of self.now) }
        ensures { result ≡ transfer_status status (blob_phase (state_of self.now)) }
    {
        states_are_sound();
        let missing = self.blocks_missing();
        transfer_reply(status, self.look().phase(), missing)
    }

    /// What a Transfer Start does.
    pub fn start_told(&self, id: u64, parameters: Parameters) -> Told
        ensures known { result.status ≤ 7 }
        ensures within { BeginsWithin self.now.capacity parameters result.change }
        ensures told { (from : ℕ) → on_blob (server_of (state_of self.now)) from (TransferStart id parameters) ≡ told_by (server_of (state_of self.now)) from parameters result }
    {
        self.look().transfer_start(id, parameters)
    }

    /// What a Transfer Cancel does.
    pub fn cancel_told(&self, id: u64) -> Told
        ensures known { result.status ≤ 7 }
        ensures within { (p : Parameters) → BeginsWithin self.now.capacity p result.change }
        ensures told { (from : ℕ) → on_blob (server_of (state_of self.now)) from (TransferCancel id) ≡ told_by (server_of (state_of self.now)) from UNUSED result }
    {
        self.look().transfer_cancel(id)
    }

    /// BLOB Information Get.
    pub fn on_blob_information_get(&self, from: u16) -> Served
        ensures { ServedAs (state_of self.now) (on_blob (server_of (state_of self.now)) from BlobInformationGet) (Ok result) (state_of self.now) }
    {
        Served {
            reply: Some((from, information_reply(self.capacity))),
            work: FlashWork::Untouched,
        }
    }

    /// BLOB Transfer Get.
    pub fn on_transfer_get(&self, from: u16) -> Served
        requires { IsNodeState (state_of self.now) }
        ensures { ServedAs (state_of self.now) (on_blob (server_of (state_of self.now)) from TransferGet) (Ok result) (state_of self.now) }
    {
        Served {
            reply: Some((from, self.transfer_answer(0))),
            work: FlashWork::Untouched,
        }
    }

    /// BLOB Transfer Start.
    pub fn on_transfer_start(
        &mut self,
        alloc: Global,
        from: u16,
        id: u64,
        parameters: Parameters,
    ) -> Result<Served, Stop>
        requires sound { IsNodeState (state_of self.old) }
        requires range { AreInRange parameters }
        ensures { ServedAs (state_of self.old) (on_blob (server_of (state_of self.old)) from (TransferStart id parameters)) result (state_of self.new) }
    {
        states_are_sound();
        told_phase();
        let told = self.start_told(id, parameters);
        let work = self.apply(alloc, from, parameters, told)?;
        let reply = self.transfer_answer(told.status);
        Ok(Served {
            reply: Some((from, reply)),
            work,
        })
    }

    /// BLOB Transfer Cancel.
    pub fn on_transfer_cancel(&mut self, alloc: Global, from: u16, id: u64) -> Result<Served, Stop>
        requires { IsNodeState (state_of self.old) }
        ensures { ServedAs (state_of self.old) (on_blob (server_of (state_of self.old)) from (TransferCancel id)) result (state_of self.new) }
    {
        states_are_sound();
        told_phase();
        let told = self.cancel_told(id);
        let work = self.apply(alloc, from, UNUSED, told)?;
        let reply = self.transfer_answer(told.status);
        Ok(Served {
            reply: Some((from, reply)),
            work,
        })
    }

    fn block_start_told(&self, block: u16, chunk_size: u16) -> BlockTold
        requires { IsNodeState (state_of self.now) }
        ensures known { result.status ≤ 7 }
        ensures within { OpensWithin result.session }
        ensures report { CanReport result.report (missing (chunks_by (state_of self.now))) }
        ensures told { (from : ℕ) → on_blob (server_of (state_of self.now)) from (BlockStart block chunk_size) ≡ block_told_by (server_of (state_of self.now)) from (chunks_by (state_of self.now)) result }
    {
        states_are_sound();
        let blocks = self.blocks_look(block);
        self.look().block_start(block, chunk_size, blocks)
    }

    fn block_get_told(&self) -> BlockTold
        requires { IsNodeState (state_of self.now) }
        ensures known { result.status ≤ 7 }
        ensures within { OpensWithin result.session }
        ensures report { CanReport result.report (missing (chunks_by (state_of self.now))) }
        ensures told { (from : ℕ) → on_blob (server_of (state_of self.now)) from BlockGet ≡ block_told_by (server_of (state_of self.now)) from (chunks_by (state_of self.now)) result }
    {
        states_are_sound();
        self.look().block_get()
    }

    /// Does what a Block row says.
    #[tactic(auto, using(crate::proofs::Changes::same_after))]
    fn tell_block(&mut self, alloc: Global, from: u16, told: BlockTold) -> Result<Served, Stop>
        requires sound { IsNodeState (state_of self.old) }
        requires known { told.status ≤ 7 }
        requires within { OpensWithin told.session }
        requires report { CanReport told.report (missing (chunks_by (state_of self.old))) }
        ensures { ServedAs (state_of self.old) (block_told_by (server_of (state_of self.old)) from (chunks_by (state_of self.old)) told) result (state_of self.new) }
    {
        states_are_sound();
        let now = self.moment;
        let missing = self.session.missing();
        if self.session.change(alloc, told.session, now, from).is_err() {
            return Err(Stop::NoMemory);
        }
        let reply = block_reply(told, &missing);
        Ok(Served {
            reply: Some((from, reply)),
            work: FlashWork::Untouched,
        })
    }

    /// BLOB Block Start.
    pub fn on_block_start(
        &mut self,
        alloc: Global,
        from: u16,
        block: u16,
        chunk_size: u16,
    ) -> Result<Served, Stop>
        requires { IsNodeState (state_of self.old) }
        ensures { ServedAs (state_of self.old) (on_blob (server_of (state_of self.old)) from (BlockStart block chunk_size)) result (state_of self.new) }
    {
        let told = self.block_start_told(block, chunk_size);
        self.tell_block(alloc, from, told)
    }

    /// BLOB Block Get.
    pub fn on_block_get(&mut self, alloc: Global, from: u16) -> Result<Served, Stop>
        requires { IsNodeState (state_of self.old) }
        ensures { ServedAs (state_of self.old) (on_blob (server_of (state_of self.old)) from BlockGet) result (state_of self.new) }
    {
        let told = self.block_get_told();
        self.tell_block(alloc, from, told)
    }
}
