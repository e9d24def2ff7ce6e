// A distributor on a flash whose power can be cut.
ghost use Rattle.std.specs.Prelude.{◌≡◌, ◌<◌, Some, None, false};
ghost use Rattle.mu_model_flash.specs.Flash.{ArmedAs};
ghost use Rattle.mu_model_distributor.specs.DistState.{DistState};
ghost use Rattle.mu_distributor_server.specs.Views.{seen_of, address_of};
ghost use Rattle.mu_distributor_server.specs.Shows.{Shows, Holds};

use crate::distributor::Distributor;
use mu_outside::{Pattern, Plug};

impl<F: Plug> Distributor<F> {
    /// Arms the n-th operation of the flash from now, in place of an earlier one. `n` is at least 1, and the power is on. Nothing else changes.
    pub fn arm(&mut self, n: u32, pattern: Pattern)
        requires some { 0 < n }
        requires on { (seen_of F.Flash.seen self.old).off ≡ false }
        ensures armed { ArmedAs (Some (record { number = n; pattern = pattern })) (seen_of F.Flash.seen self.old) (seen_of F.Flash.seen self.new) }
        ensures address { address_of self.new ≡ address_of self.old }
        ensures shows { (s : DistState) → Shows self.old s → Shows self.new s }
        ensures holds { (s : DistState) → Holds F.Flash.seen self.old s → Holds F.Flash.seen self.new s }
    {
        self.server.arm(n, pattern);
    }

    /// Makes the armed operation of the flash none. The power is on. Nothing else changes.
    pub fn disarm(&mut self)
        requires { (seen_of F.Flash.seen self.old).off ≡ false }
        ensures armed { ArmedAs None (seen_of F.Flash.seen self.old) (seen_of F.Flash.seen self.new) }
        ensures address { address_of self.new ≡ address_of self.old }
        ensures shows { (s : DistState) → Shows self.old s → Shows self.new s }
        ensures holds { (s : DistState) → Holds F.Flash.seen self.old s → Holds F.Flash.seen self.new s }
    {
        self.server.disarm();
    }
}
