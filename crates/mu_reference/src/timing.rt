// What a node's BLOB server asks for as time passes.
ghost use Rattle.std.specs.Prelude.{◌≡◌};
ghost use Rattle.mu_model_node.specs.BlobTable.{on_server_time};
ghost use Rattle.mu_model_node.specs.NodeState.{server_of};
ghost use Rattle.mu_model_node.specs.Sound.{IsNodeState};
ghost use Rattle.mu_blob_rows.specs.Rows.{pulled};
ghost use Rattle.mu_reference.specs.View.{state_of};
ghost use Rattle.mu_reference.specs.BlobRows.{time_stepped};

use crate::values::State;
use arrayvec::ArrayVec;
use mu_blob_rows::{TimeStep as RowStep, report_due};
use mu_model_node::laws::states_are_sound;

/// What is done as time passes.
#[derive(Drop)]
pub enum TimeStep {
    Wait,
    Unlink,
    Ask(ArrayVec<u16, 16>),
}

impl State {
    // A Partial Block Report, where one is due.
    fn pull_step(&self) -> TimeStep
        requires { IsNodeState (state_of self.now) }
        ensures { pulled (server_of (state_of self.now)) (state_of self.now).session.current ≡ time_stepped (server_of (state_of self.now)) result }
    {
        states_are_sound();
        let Some(current) = &self.session.current else {
            return TimeStep::Wait;
        };
        let received = current.chunks.received();
        match report_due(&self.session.rest, &received, self.moment) {
            None => TimeStep::Wait,
            Some(chunks) => TimeStep::Ask(chunks),
        }
    }

    /// What is done as time passes.
    pub(crate) fn time_step(&self) -> TimeStep
        requires { IsNodeState (state_of self.now) }
        ensures { on_server_time (server_of (state_of self.now)) (server_of (state_of self.now)).serving ≡ time_stepped (server_of (state_of self.now)) result }
    {
        match self.look().time() {
            RowStep::Wait => TimeStep::Wait,
            RowStep::Unlink => TimeStep::Unlink,
            RowStep::Pull => self.pull_step(),
        }
    }
}
