// What holds of every server.
ghost use Rattle.std.specs.Prelude.{◌≡◌, ◌<◌, ◌≤◌, ℕ, [], None, true, false, IfSome, length};
ghost use Rattle.mu_model_flash.specs.Run.{either, Ran};
ghost use Rattle.mu_model_record.specs.declared.BankState.TheVariants.{Filling};
ghost use Rattle.mu_model_record.specs.Record.{IsRecord, entry_of};
ghost use Rattle.mu_model_record.specs.Represents.{RepresentsStore};
ghost use Rattle.mu_model_record.specs.Store.{StoreState};
ghost use Rattle.mu_model_represents.specs.BlobPart.{IsBlobRecord};
ghost use Rattle.mu_model_represents.specs.StoreStates.{IsStoreState};
ghost use Rattle.mu_blob_session.specs.Sound.{Suits};
ghost use Rattle.mu_block.specs.Coming.{IsOpen};
ghost use Rattle.mu_place.specs.Place.{place_seen, place_record, place_filling, PlaceHolds};
ghost use Rattle.mu_kept.specs.Views.{job_in, part_in, has_parameters, flags_in, fills_in, serving_in};
ghost use Rattle.mu_kept.specs.Shows.{Shows, held_in, served_in};
ghost use Rattle.mu_kept.specs.Calls.{bank_for};
ghost use Rattle.mu_blobsrv.specs.Suits.{Lacks};
ghost use Rattle.mu_blobsrv.specs.Views.{store_of, place_of, fault_of, session_of, coming_of, server_of};

use crate::server::BlobServer;
use mu_outside::Flash;

impl<F: Flash> BlobServer<F> {
    /// What holds of every server. It does nothing.
    pub fn known(&self)
        ensures is_record { fault_of self.now ≡ None → IsRecord (place_record (place_of self.now)) }
        ensures job { fault_of self.now ≡ None → IsBlobRecord (place_record (place_of self.now)) (part_in (store_of self.now)) }
        ensures rests { fault_of self.now ≡ None → has_parameters (job_in (store_of self.now)) ≡ false → place_filling (place_of self.now) ≡ None }
        ensures few { fault_of self.now ≡ None → length (flags_in (store_of self.now)) ≤ 256 }

        // the bank that is being filled
        ensures there { IfSome (place_filling (place_of self.now)) (λ f. f.bank < (place_record (place_of self.now)).number) }
        ensures entry { IfSome (place_filling (place_of self.now)) (λ f. entry_of (place_record (place_of self.now)) f.bank ≡ Filling f.size f.log) }
        ensures fills { fault_of self.now ≡ None → fills_in (store_of self.now) ≡ true → place_filling (place_of self.now) ≡ bank_for (job_in (store_of self.now)) }

        // the block that comes
        ensures open { IsOpen (coming_of self.now) }
        ensures suits { fault_of self.now ≡ None → Suits (serving_in (store_of self.now)) (session_of self.now).link (coming_of self.now) }
        ensures lacks { fault_of self.now ≡ None → Lacks (flags_in (store_of self.now)) (coming_of self.now) }

        // of a state that the flash represents
        ensures present { (s : StoreState) → PlaceHolds F.seen (place_of self.now) s → s.present ≡ place_record (place_of self.now) }
        ensures state { (s : StoreState) → PlaceHolds F.seen (place_of self.now) s → IsStoreState s }
        ensures idle { (s : StoreState) → PlaceHolds F.seen (place_of self.now) s → Ran (either RepresentsStore) s [] (place_seen F.seen (place_of self.now)) (place_seen F.seen (place_of self.now)) }
        ensures shows { (s : StoreState) → PlaceHolds F.seen (place_of self.now) s → Shows (store_of self.now) (held_in s (part_in (store_of self.now))) }
        ensures serving { (s : StoreState) (now : ℕ) → PlaceHolds F.seen (place_of self.now) s → (server_of self.now (held_in s (part_in (store_of self.now))) now).serving ≡ served_in s (part_in (store_of self.now)) }
    {
        self.store.known();
        self.session.known();
    }
}
