// Changes of what is kept over a power cut.
ghost use Rattle.std.specs.Prelude.{◌≡◌, ◌==◌, ◌<◌, ◌≤◌, IfOk, OnErr, false};
ghost use Rattle.mu_model_node.specs.BlobServer.{Begins, Drops};
ghost use Rattle.mu_model_node.specs.FlashWork.{fresh_after};
ghost use Rattle.mu_model_node.specs.Events.{last_count};
ghost use Rattle.mu_model_node.specs.NodeOutcome.{recorded, job_after};
ghost use Rattle.mu_reference.specs.View.{job_of, state_of};
ghost use Rattle.mu_model_node.specs.There.{there};

use crate::slots::Slots;
use crate::values::State;
use mu_arith::block_count;
use mu_model_node::Parameters;
use std::alloc::{AllocError, Global};

/// Why an event isn't done.
#[derive(Clone, Copy, Debug, PartialEq, Eq)]
pub enum Stop {
    /// There is no memory.
    NoMemory,
    /// The last record was written, and one more is due.
    Worn,
}

fn fresh_slots(fresh: u8) -> u8
    ensures { result ≡ fresh_after false fresh }
{
    if fresh == 0 { 3 } else { fresh - 1 }
}

impl State {
    /// A further record is counted.
    pub fn record(&mut self)
        requires { self.old.count < last_count }
        ensures { state_of self.new ≡ recorded (state_of self.old) (state_of self.old).durable.images (state_of self.old).durable.job }
    {
        self.count += 1;
        self.fresh = fresh_slots(self.fresh);
    }

    /// Whether the last record was written.
    pub fn is_at_last_record(&self) -> bool
        ensures test { result ≡ (self.now.count == last_count) }
        ensures room { result ≡ false → self.now.count < last_count }
    {
        self.count == u32::MAX
    }

    /// A transfer is begun: one record.
    pub fn begin(&mut self, alloc: Global, parameters: Parameters) -> Result<(), AllocError>
        requires room { self.old.count < last_count }
        requires size { 1 ≤ parameters.size }
        requires size_most { parameters.size ≤ 1048576 }
        requires log_least { 12 ≤ parameters.log }
        requires log_most { parameters.log ≤ 14 }
        ensures ok { IfOk result (λ _. state_of self.new ≡ job_after (state_of self.old) (Begins parameters) (there job_of self.old.job)) }
        ensures err { OnErr result (self.new ≡ self.old) }
    {
        let held = Slots::empty(
            alloc,
            usize::from(block_count(parameters.size, parameters.log)),
        )?;
        if let Some(job) = &mut self.job {
            job.parameters = Some(parameters);
            job.held = held;
            self.record();
        }
        Ok(())
    }

    /// Parameters and held blocks go: one record.
    pub fn drop_blocks(&mut self, alloc: Global)
        requires { self.old.count < last_count }
        ensures { state_of self.new ≡ job_after (state_of self.old) Drops (there job_of self.old.job) }
    {
        if let Some(job) = &mut self.job {
            job.parameters = None;
            job.held = Slots::none(alloc);
            self.record();
        }
    }
}
