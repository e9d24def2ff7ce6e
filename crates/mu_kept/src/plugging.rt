// A store that keeps a job, on a flash whose power can be cut.
ghost use Rattle.std.specs.Prelude.{◌≡◌, ◌<◌, Some, None, false};
ghost use Rattle.mu_model_flash.specs.Flash.{ArmedAs};
ghost use Rattle.mu_model_record.specs.Store.{StoreState};
ghost use Rattle.mu_place.specs.Place.{place_seen, PlaceHolds};
ghost use Rattle.mu_kept.specs.Views.{place_in};
ghost use Rattle.mu_kept.specs.Calls.{IsSameStore};

use crate::store::JobStore;
use mu_outside::{Pattern, Plug};

impl<F: Plug> JobStore<F> {
    /// Arms the n-th operation of the flash from now, in place of an earlier one. `n` is at least 1, and the power is on. Nothing else changes.
    pub fn arm(&mut self, n: u32, pattern: Pattern)
        requires some { 0 < n }
        requires on { (place_seen F.Flash.seen (place_in self.old)).off ≡ false }
        ensures armed { ArmedAs (Some (record { number = n; pattern = pattern })) (place_seen F.Flash.seen (place_in self.old)) (place_seen F.Flash.seen (place_in self.new)) }
        ensures same { IsSameStore self.old self.new }
        ensures holds { (s : StoreState) → PlaceHolds F.Flash.seen (place_in self.old) s → PlaceHolds F.Flash.seen (place_in self.new) s }
    {
        self.place.arm(n, pattern);
    }

    /// Makes the armed operation of the flash none. The power is on. Nothing else changes.
    pub fn disarm(&mut self)
        requires { (place_seen F.Flash.seen (place_in self.old)).off ≡ false }
        ensures armed { ArmedAs None (place_seen F.Flash.seen (place_in self.old)) (place_seen F.Flash.seen (place_in self.new)) }
        ensures same { IsSameStore self.old self.new }
        ensures holds { (s : StoreState) → PlaceHolds F.Flash.seen (place_in self.old) s → PlaceHolds F.Flash.seen (place_in self.new) s }
    {
        self.place.disarm();
    }
}
