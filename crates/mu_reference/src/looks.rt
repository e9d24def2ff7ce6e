// The node as the rows of the BLOB table look at it.
ghost use Rattle.std.specs.Prelude.{◌≡◌, ◌≤◌, length};
ghost use Rattle.mu_model_node.specs.Sound.{IsNodeState};
ghost use Rattle.mu_blob_rows.specs.Rows.{BlocksLookSo};
ghost use Rattle.mu_model_node.specs.Slots.{missing};
ghost use Rattle.mu_model_node.specs.There.{there};
ghost use Rattle.mu_model_node.specs.NodeState.{transfer_of, server_of};
ghost use Rattle.mu_blob_rows.specs.Looks.{transfer_with, serving_with, current_with, server_with};
ghost use Rattle.mu_reference.specs.View.{job_of, current_of, serving_of, state_of};
ghost use Rattle.mu_reference.specs.BlobRows.{held_in, chunks_in, held_by, chunks_by};

use crate::phases::{Serving, serving_at, update_phase};
use crate::values::{CurrentBlock, Job, State};
use mu_blob_rows::{BlockLook, BlocksLook, Look, Serving as ServingLook, TransferLook};
use mu_report::NumberSet;

fn transfer_look(job: &Job) -> TransferLook
    ensures { transfer_with result job.now.held ≡ transfer_of (job_of job.now) }
{
    TransferLook {
        id: job.id,
        size: job.meta.size,
        base: job.base,
        parameters: job.parameters,
    }
}

fn serving_look<'a>(serving: Serving<'a>) -> ServingLook
    ensures { serving_with result (held_in (serving_of serving.entry)) ≡ serving_of serving.entry }
{
    match serving {
        Serving::NoJob => ServingLook::NoJob,
        Serving::Lacking(job) => ServingLook::Lacking(transfer_look(job)),
        Serving::Whole(job) => ServingLook::Whole(transfer_look(job)),
    }
}

fn block_look(current: &Option<CurrentBlock>) -> Option<BlockLook>
    ensures { current_with result (chunks_in (there current_of current.now)) ≡ there current_of current.now }
{
    match current {
        None => None,
        Some(current) => Some(BlockLook {
            number: current.number,
            chunk_size: current.chunk_size,
        }),
    }
}

fn blocks_of<'a>(serving: Serving<'a>, block: u16) -> BlocksLook
    requires { length (held_in (serving_of serving)) ≤ 256 }
    ensures { BlocksLookSo (held_in (serving_of serving.entry)) block result }
{
    match serving {
        Serving::NoJob => BlocksLook {
            count: 0,
            is_held: false,
        },
        Serving::Lacking(job) | Serving::Whole(job) => BlocksLook {
            count: job.held.len() as u16,
            is_held: job.held.has(usize::from(block)),
        },
    }
}

fn missing_of<'a>(serving: Serving<'a>) -> NumberSet
    requires { length (held_in (serving_of serving)) ≤ 256 }
    ensures { result ≡ missing (held_in (serving_of serving.entry)) }
{
    match serving {
        Serving::NoJob => NumberSet::new(0),
        Serving::Lacking(job) | Serving::Whole(job) => job.held.missing(),
    }
}

impl State {
    /// The set of the blocks that are missing; the empty set below 0 where there is no job to serve.
    pub fn blocks_missing(&self) -> NumberSet
        requires { IsNodeState (state_of self.now) }
        ensures missing { result ≡ missing (held_by (state_of self.now)) }
        ensures few { length result ≤ 256 }
    {
        let phase = update_phase(&self.job, self.session.rest.link);
        missing_of(serving_at(phase))
    }

    /// What a Block Start looks at of the blocks.
    pub fn blocks_look(&self, block: u16) -> BlocksLook
        requires { IsNodeState (state_of self.now) }
        ensures { BlocksLookSo (held_by (state_of self.now)) block result }
    {
        let phase = update_phase(&self.job, self.session.rest.link);
        blocks_of(serving_at(phase), block)
    }

    /// The node as the rows of the BLOB table look at it.
    pub fn look<'a>(&'a self) -> Look<'a>
        ensures server { server_with result (held_by (state_of self.now)) (chunks_by (state_of self.now)) ≡ server_of (state_of self.now) }
        ensures capacity { result.capacity ≡ self.now.capacity }
        ensures current { current_with result.current (chunks_by (state_of self.now)) ≡ (state_of self.now).session.current }
    {
        Look {
            capacity: self.capacity,
            serving: serving_look(serving_at(update_phase(&self.job, self.session.rest.link))),
            session: &self.session.rest,
            current: block_look(&self.session.current),
            now: self.moment,
        }
    }
}
