// The steps of the update table, done.
ghost use Rattle.std.specs.Prelude.{◌≡◌, ℕ, [], None, is_some, true, false};
ghost use Rattle.mu_model_flash.specs.Run.{either, Ran};
ghost use Rattle.mu_model_node.specs.BlobServer.{made_ready, heard_at};
ghost use Rattle.mu_model_node.specs.NodeState.{NodeDurable, NodeState};
ghost use Rattle.mu_model_node.specs.NodeOutcome.{with_session};
ghost use Rattle.mu_model_represents.specs.RepresentsNode.{RepresentsNode};
ghost use Rattle.mu_update_rows.specs.Fits.{IsStepOf, is_cut};
ghost use Rattle.mu_update_rows.specs.Rows.{update_stepped};
ghost use Rattle.mu_place.specs.Calls.{Answers, WornUntouched, HasRisen};
ghost use Rattle.mu_kept.specs.Views.{job_in};
ghost use Rattle.mu_blobsrv.specs.Views.{store_of, session_of};
ghost use Rattle.mu_node.specs.Views.{fault_in, place_in, server_in, config_of, seen_of, Shows, Holds};
ghost use Rattle.mu_node.specs.Does.{HasInMemory, HasOnFlash, Remembers, Runs};
ghost use Rattle.mu_node.specs.Steps.{IsLookAt, StepFault, status_by};

use crate::node::Node;
use crate::ways::NodeWays;
use mu_blobsrv::StoreFault;
use mu_model_flash::laws::runs;
use mu_model_represents::laws::runs_are_read;
use mu_outside::Flash;
use mu_update_rows::{NodeLook, UpdateStep};

// The status that is answered after a step.
pub(crate) fn status_of(step: UpdateStep) -> u8
    ensures { result ≡ status_by step }
{
    match step {
        UpdateStep::Answer(status) => status,
        _ => 0,
    }
}

impl<F: Flash> Node<F> {
    // The update is heard, and a link that is Cut becomes Ready.
    fn hear(&mut self)
        requires fault { fault_in self.old ≡ None }
        requires job { is_some (job_in (store_of (server_in self.old))) ≡ true }
        ensures place { place_in self.new ≡ place_in self.old }
        ensures config { config_of self.new ≡ config_of self.old }
        ensures ready { (n : NodeState) → Shows self.old n → is_cut (session_of (server_in self.old)).link ≡ true → HasInMemory self.new (with_session n (made_ready n.moment n.session)) }
        ensures hears { (n : NodeState) → Shows self.old n → is_cut (session_of (server_in self.old)).link ≡ false → HasInMemory self.new (with_session n (heard_at n.moment n.session)) }
        ensures flash { (d : NodeDurable) → HasOnFlash F.seen self.old d → HasOnFlash F.seen self.new d }
    {
        self.server.resume(self.moment);
    }

    // Nothing is written: no operation has begun.
    pub(crate) fn rests(&self)
        ensures { (n : NodeState) → Holds F.seen self.now n → Ran (either RepresentsNode) n.durable [] (seen_of F.seen self.now) (seen_of F.seen self.now) × HasOnFlash F.seen self.now n.durable }
    {
        runs::<NodeWays<F>>();
        runs_are_read();
        self.server.known();
    }

    // Does what a step says, which was decided over a look at this node.
    pub(crate) fn do_step(&mut self, look: &NodeLook, step: UpdateStep) -> Result<(), StoreFault>
        requires fault { fault_in self.old ≡ None }
        requires looks { IsLookAt look.now self.old }
        requires of { IsStepOf look.now step }
        ensures answers { Answers (place_in self.new) result }
        ensures config { config_of self.new ≡ config_of self.old }
        ensures remembers { (to : ℕ) → Remembers (λ n. update_stepped n to step) self.old self.new result }
        ensures faults { StepFault step (place_in self.old) result }
        ensures untouched { WornUntouched (place_in self.old) (place_in self.new) result }
        ensures cause { HasRisen F.seen (place_in self.old) (place_in self.new) result }
        ensures runs { (to : ℕ) → Runs F.seen (λ n. update_stepped n to step) self.old self.new result }
    {
        self.known();
        self.rests();
        match step {
            UpdateStep::MakeReady => {
                self.hear();
                Ok(())
            }
            UpdateStep::Hear => {
                self.hear();
                Ok(())
            }
            UpdateStep::Take(what) => self.take(what, self.moment),
            UpdateStep::Lose => self.lose(),
            UpdateStep::Apply => match self.note.job {
                Some(job) => self.apply(job),
                None => unreachable!(),
            },
            UpdateStep::Answer(_) => Ok(()),
        }
    }
}
