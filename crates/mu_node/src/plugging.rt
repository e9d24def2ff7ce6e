// A node on a flash whose power can be cut.
ghost use Rattle.std.specs.Prelude.{◌≡◌, ◌<◌, Some, None, false};
ghost use Rattle.mu_model_flash.specs.Flash.{ArmedAs};
ghost use Rattle.mu_model_node.specs.NodeState.{NodeState};
ghost use Rattle.mu_node.specs.Views.{fault_in, config_of, seen_of, Shows, Holds};

use crate::node::Node;
use mu_outside::{Pattern, Plug};

impl<F: Plug> Node<F> {
    /// Arms the n-th operation of the flash from now, in place of an earlier one. `n` is at least 1, and the power is on. Nothing else changes.
    pub fn arm(&mut self, n: u32, pattern: Pattern)
        requires some { 0 < n }
        requires on { (seen_of F.Flash.seen self.old).off ≡ false }
        ensures armed { ArmedAs (Some (record { number = n; pattern = pattern })) (seen_of F.Flash.seen self.old) (seen_of F.Flash.seen self.new) }
        ensures fault { fault_in self.new ≡ fault_in self.old }
        ensures config { config_of self.new ≡ config_of self.old }
        ensures shows { (n : NodeState) → Shows self.old n → Shows self.new n }
        ensures holds { (n : NodeState) → Holds F.Flash.seen self.old n → Holds F.Flash.seen self.new n }
    {
        self.server.arm(n, pattern);
    }

    /// Makes the armed operation of the flash none. The power is on. Nothing else changes.
    pub fn disarm(&mut self)
        requires { (seen_of F.Flash.seen self.old).off ≡ false }
        ensures armed { ArmedAs None (seen_of F.Flash.seen self.old) (seen_of F.Flash.seen self.new) }
        ensures fault { fault_in self.new ≡ fault_in self.old }
        ensures config { config_of self.new ≡ config_of self.old }
        ensures shows { (n : NodeState) → Shows self.old n → Shows self.new n }
        ensures holds { (n : NodeState) → Holds F.Flash.seen self.old n → Holds F.Flash.seen self.new n }
    {
        self.server.disarm();
    }
}
