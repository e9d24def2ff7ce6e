// What a node's BLOB server does as time passes.
ghost use Rattle.std.specs.Prelude.{◌≡◌};
ghost use Rattle.mu_model_node.specs.BlobTable.{on_server_time};
ghost use Rattle.mu_model_node.specs.NodeState.{server_of};
ghost use Rattle.mu_model_node.specs.Sound.{IsNodeState};
ghost use Rattle.mu_reference.specs.View.{state_of};
ghost use Rattle.mu_reference.specs.BlobRows.{time_stepped};
ghost use Rattle.mu_reference.specs.Outcomes.{ServedAs};

use crate::blob_events::Served;
use crate::chunks::nothing;
use crate::timing::TimeStep;
use crate::values::{PullReport, State};
use arrayvec::ArrayVec;
use mu_blob_answers::partial_reply;
use mu_model_node::FlashWork;

fn numbers_of(chunks: &ArrayVec<u16, 16>) -> ArrayVec<u16, 16>
    ensures { result.items ≡ chunks.now.items }
{
    let mut numbers = ArrayVec::new();
    if numbers.try_extend_from_slice(chunks.as_slice()).is_err() {
        prove!(false);
    }
    numbers
}

impl State {
    #[tactic(auto, using(crate::proofs::Changes::same_after))]
    fn ask(&mut self, chunks: ArrayVec<u16, 16>) -> Served
        ensures { ServedAs (state_of self.old) (time_stepped (server_of (state_of self.old)) (TimeStep.Ask chunks)) (Ok result) (state_of self.new) }
    {
        let asked = numbers_of(&chunks);
        self.session.rest.report = Some(PullReport {
            moment: self.moment,
            chunks: asked,
        });
        let reply = match self.session.rest.client {
            None => None,
            Some(client) => Some((client, partial_reply(chunks))),
        };
        Served {
            reply,
            work: FlashWork::Untouched,
        }
    }

    /// Time passes at the BLOB server.
    pub fn on_server_time(&mut self) -> Served
        requires { IsNodeState (state_of self.old) }
        ensures { ServedAs (state_of self.old) (on_server_time (server_of (state_of self.old)) (server_of (state_of self.old)).serving) (Ok result) (state_of self.new) }
    {
        match self.time_step() {
            TimeStep::Wait => nothing(),
            TimeStep::Unlink => {
                self.session.unlink();
                nothing()
            }
            TimeStep::Ask(chunks) => self.ask(chunks),
        }
    }
}
