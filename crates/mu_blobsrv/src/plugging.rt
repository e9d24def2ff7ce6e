// A server on a flash whose power can be cut.
ghost use Rattle.std.specs.Prelude.{◌≡◌, ◌<◌, Some, None, false};
ghost use Rattle.mu_model_flash.specs.Flash.{ArmedAs};
ghost use Rattle.mu_model_record.specs.Store.{StoreState};
ghost use Rattle.mu_place.specs.Place.{place_seen, PlaceHolds};
ghost use Rattle.mu_kept.specs.Calls.{IsSameStore};
ghost use Rattle.mu_blobsrv.specs.Views.{store_of, place_of, session_of};

use crate::server::BlobServer;
use mu_outside::{Pattern, Plug};

impl<F: Plug> BlobServer<F> {
    /// Arms the n-th operation of the flash from now, in place of an earlier one. `n` is at least 1, and the power is on. Nothing else changes.
    pub fn arm(&mut self, n: u32, pattern: Pattern)
        requires some { 0 < n }
        requires on { (place_seen F.Flash.seen (place_of self.old)).off ≡ false }
        ensures armed { ArmedAs (Some (record { number = n; pattern = pattern })) (place_seen F.Flash.seen (place_of self.old)) (place_seen F.Flash.seen (place_of self.new)) }
        ensures same { IsSameStore (store_of self.old) (store_of self.new) }
        ensures session { session_of self.new ≡ session_of self.old }
        ensures holds { (s : StoreState) → PlaceHolds F.Flash.seen (place_of self.old) s → PlaceHolds F.Flash.seen (place_of self.new) s }
    {
        self.store.arm(n, pattern);
    }

    /// Makes the armed operation of the flash none. The power is on. Nothing else changes.
    pub fn disarm(&mut self)
        requires { (place_seen F.Flash.seen (place_of self.old)).off ≡ false }
        ensures armed { ArmedAs None (place_seen F.Flash.seen (place_of self.old)) (place_seen F.Flash.seen (place_of self.new)) }
        ensures same { IsSameStore (store_of self.old) (store_of self.new) }
        ensures session { session_of self.new ≡ session_of self.old }
        ensures holds { (s : StoreState) → PlaceHolds F.Flash.seen (place_of self.old) s → PlaceHolds F.Flash.seen (place_of self.new) s }
    {
        self.store.disarm();
    }
}
