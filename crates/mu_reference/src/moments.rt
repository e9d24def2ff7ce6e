// Moments that are handed in, and boots.
ghost use Rattle.std.specs.Prelude.{◌≡◌};
ghost use Rattle.mu_model_node.specs.NodeState.{restarted};
ghost use Rattle.mu_model_node.specs.Events.{at_moment};
ghost use Rattle.mu_reference.specs.View.{state_of};

use crate::values::{Session, State};

impl State {
    /// The last moment is the greatest that was handed in.
    pub fn hand_moment(&mut self, now: u64)
        ensures { state_of self.new ≡ at_moment (state_of self.old) now }
    {
        self.moment = self.moment.max(now);
    }

    /// After a boot.
    pub fn boot(&mut self)
        ensures { state_of self.new ≡ restarted (state_of self.old).durable }
    {
        self.fresh = 0;
        self.session = Session::asleep();
        self.moment = 0;
    }
}
