// What holds of every node.
ghost use Rattle.std.specs.Prelude.{◌≡◌, None};
ghost use Rattle.mu_model_record.specs.Record.{IsRecord};
ghost use Rattle.mu_model_shown_node.specs.Shown.{IsNodeMemory};
ghost use Rattle.mu_node.specs.Views.{fault_in, memory_of};

use crate::node::Node;
use mu_outside::Flash;

impl<F: Flash> Node<F> {
    /// What holds of every node. It does nothing.
    pub fn known(&self)
        ensures is_record { fault_in self.now ≡ None → IsRecord (memory_of self.now).present }
        ensures memory { fault_in self.now ≡ None → IsNodeMemory (memory_of self.now) }
    {
        self.server.known();
    }
}
