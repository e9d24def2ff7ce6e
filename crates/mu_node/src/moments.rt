// The last moment of a node: the greatest that it was handed.
ghost use Rattle.std.specs.Prelude.{◌≡◌, None};
ghost use Rattle.mu_model_node.specs.Events.{at_moment};
ghost use Rattle.mu_model_node.specs.NodeState.{NodeState};
ghost use Rattle.mu_node.specs.Views.{fault_in, place_in, server_in, config_of, Shows, Holds};

use crate::node::Node;
use mu_outside::Flash;

impl<F: Flash> Node<F> {
    // A moment is handed in, with each event.
    pub(crate) fn hand_moment(&mut self, now: u64)
        requires { fault_in self.old ≡ None }
        ensures server { server_in self.new ≡ server_in self.old }
        ensures config { config_of self.new ≡ config_of self.old }
        ensures shows { (n : NodeState) → Shows self.old n → Shows self.new (at_moment n now) }
        ensures holds { (n : NodeState) → Holds F.seen self.old n → Holds F.seen self.new (at_moment n now) }
    {
        self.moment = self.moment.max(now);
    }
}
