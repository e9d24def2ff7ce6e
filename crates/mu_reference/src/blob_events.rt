// What a node does with a BLOB message, and as time passes while blocks are missing.
ghost use Rattle.std.specs.Prelude.{◌≡◌, ◌≤◌};
ghost use Rattle.mu_model_node.specs.BlobServer.{Begins, Drops};
ghost use Rattle.mu_model_node.specs.NodeState.{server_of};
ghost use Rattle.mu_model_node.specs.NodeOutcome.{job_after, served};
ghost use Rattle.mu_model_node.specs.Sound.{IsNodeState};
ghost use Rattle.mu_reference.specs.View.{state_of};
ghost use Rattle.mu_reference.specs.BlobRows.{server_of as server_here};
ghost use Rattle.mu_blob_rows.specs.Rows.{change_by, told_by};
ghost use Rattle.mu_reference.specs.Outcomes.{BeginsWithin, ChangedAs};

use crate::blob_table::Server;
use crate::messages::BlobAnswer;
use crate::phases::{serving_at, update_phase};
use crate::recording::Stop;
use crate::values::State;
use mu_blob_rows::{Told, TransferChange};
use mu_model_node::{FlashWork, Parameters};
use std::alloc::Global;

/// What came of a BLOB message or of time.
#[derive(Drop)]
pub struct Served {
    /// The reply, with its destination.
    pub reply: Option<(u16, BlobAnswer)>,
    pub work: FlashWork,
}

impl State {
    /// What the BLOB rows see.
    pub fn server<'a>(&'a self) -> Server<'a>
        ensures { server_here result ≡ server_of (state_of self.now) }
    {
        Server {
            capacity: self.capacity,
            serving: serving_at(update_phase(&self.job, self.session.rest.link)),
            session: &self.session,
            now: self.moment,
        }
    }
}

impl State {
    fn begin_counted(&mut self, alloc: Global, parameters: Parameters) -> Result<FlashWork, Stop>
        requires some { 1 ≤ parameters.size }
        requires size_most { parameters.size ≤ 1048576 }
        requires log_least { 12 ≤ parameters.log }
        requires log_most { parameters.log ≤ 14 }
        ensures { ChangedAs (state_of self.old) (job_after (state_of self.old) (Begins parameters) (state_of self.old).durable.job) (Begins parameters) result (state_of self.new) }
    {
        if self.is_at_last_record() {
            return Err(Stop::Worn);
        }
        if self.begin(alloc, parameters).is_err() {
            return Err(Stop::NoMemory);
        }
        Ok(FlashWork::Begun { is_long: false })
    }

    fn drop_counted(&mut self, alloc: Global) -> Result<FlashWork, Stop>
        ensures { ChangedAs (state_of self.old) (job_after (state_of self.old) Drops (state_of self.old).durable.job) Drops result (state_of self.new) }
    {
        if self.is_at_last_record() {
            return Err(Stop::Worn);
        }
        self.drop_blocks(alloc);
        Ok(FlashWork::Recorded { is_long: false })
    }

    #[tactic(auto, using(crate::proofs::Changes::same_after, crate::proofs::Changes::small_capacity))]
    fn change_transfer(
        &mut self,
        alloc: Global,
        parameters: Parameters,
        change: TransferChange,
    ) -> Result<FlashWork, Stop>
        requires sound { IsNodeState (state_of self.old) }
        requires some { 1 ≤ parameters.size }
        requires within { BeginsWithin self.old.capacity parameters change }
        ensures { ChangedAs (state_of self.old) (job_after (state_of self.old) (change_by parameters change) (state_of self.old).durable.job) (change_by parameters change) result (state_of self.new) }
    {
        match change {
            TransferChange::Nothing => Ok(FlashWork::Untouched),
            TransferChange::Begin => self.begin_counted(alloc, parameters),
            TransferChange::Drop => self.drop_counted(alloc),
        }
    }
}

impl State {
    /// Does what a Transfer row says, its reply apart.
    #[tactic(auto, using(crate::proofs::Changes::session_after, crate::proofs::Changes::session_kept))]
    pub fn apply(
        &mut self,
        alloc: Global,
        from: u16,
        parameters: Parameters,
        told: Told,
    ) -> Result<FlashWork, Stop>
        requires sound { IsNodeState (state_of self.old) }
        requires some { 1 ≤ parameters.size }
        requires within { BeginsWithin self.old.capacity parameters told.change }
        ensures { ChangedAs (state_of self.old) (served (state_of self.old) (told_by (server_of (state_of self.old)) from parameters told)).next (change_by parameters told.change) result (state_of self.new) }
    {
        let now = self.moment;
        let work = self.change_transfer(alloc, parameters, told.change)?;
        self.session.link(told.link, now, from);
        Ok(work)
    }
}
