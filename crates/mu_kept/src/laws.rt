// What holds of every store that keeps a job.
ghost use Rattle.std.specs.Prelude.{◌≡◌, ℕ, ◌<◌, ◌≤◌, true, false, IfSome, None, [], length};
ghost use Rattle.mu_model_flash.specs.Run.{either, Ran};
ghost use Rattle.mu_model_image.specs.Pieces.{block_count};
ghost use Rattle.mu_model_node.specs.Slots.{Slots};
ghost use Rattle.mu_model_record.specs.declared.BankState.TheVariants.{Filling};
ghost use Rattle.mu_model_record.specs.Record.{IsRecord, entry_of};
ghost use Rattle.mu_model_record.specs.Represents.{RepresentsStore};
ghost use Rattle.mu_model_record.specs.Store.{StoreState};
ghost use Rattle.mu_model_represents.specs.BlobPart.{IsBlobRecord};
ghost use Rattle.mu_model_represents.specs.StoreStates.{IsStoreState};
ghost use Rattle.mu_blob_rows.specs.Looks.{serving_with};
ghost use Rattle.mu_blob_session.specs.Sound.{IsSoundServing, blocks_of};
ghost use Rattle.mu_place.specs.Place.{place_seen, place_fault, place_record, place_filling, place_held, PlaceHolds};
ghost use Rattle.mu_kept.specs.Views.{place_in, job_in, part_in, has_parameters, fills_in, flags_in, serving_in, is_whole};
ghost use Rattle.mu_kept.specs.Shows.{Shows, served_with, held_in, served_in};
ghost use Rattle.mu_kept.specs.Calls.{bank_for};

use crate::store::JobStore;
use mu_model_represents::laws::{blob_parts, represented_is_sound};
use mu_outside::Flash;

impl<F: Flash> JobStore<F> {
    /// What holds of every store that keeps a job. It does nothing.
    pub fn known(&self)
        ensures is_record { place_fault (place_in self.now) ≡ None → IsRecord (place_record (place_in self.now)) }
        ensures job { place_fault (place_in self.now) ≡ None → IsBlobRecord (place_record (place_in self.now)) (part_in self.now) }

        // the bank that is being filled
        ensures there { IfSome (place_filling (place_in self.now)) (λ f. f.bank < (place_record (place_in self.now)).number) }
        ensures entry { IfSome (place_filling (place_in self.now)) (λ f. entry_of (place_record (place_in self.now)) f.bank ≡ Filling f.size f.log) }
        ensures as_many { IfSome (place_filling (place_in self.now)) (λ f. length (place_held (place_in self.now)) ≡ block_count f.size f.log) }
        ensures none { place_filling (place_in self.now) ≡ None → place_held (place_in self.now) ≡ [] }
        ensures rests { place_fault (place_in self.now) ≡ None → has_parameters (job_in self.now) ≡ false → place_filling (place_in self.now) ≡ None }
        ensures fills { place_fault (place_in self.now) ≡ None → fills_in self.now ≡ true → place_filling (place_in self.now) ≡ bank_for (job_in self.now) }
        ensures lacking { place_fault (place_in self.now) ≡ None → has_parameters (job_in self.now) ≡ true → is_whole (serving_in self.now) ≡ false → fills_in self.now ≡ true }

        // what the rows look at
        ensures sound { place_fault (place_in self.now) ≡ None → IsSoundServing (serving_in self.now) }
        ensures count { place_fault (place_in self.now) ≡ None → length (flags_in self.now) ≡ blocks_of (serving_in self.now) }
        ensures few { place_fault (place_in self.now) ≡ None → length (flags_in self.now) ≤ 256 }
        ensures shows { (held : Slots) → Shows self.now held → serving_with (serving_in self.now) held ≡ served_with (job_in self.now) held }

        // of a state that the flash represents
        ensures present { (s : StoreState) → PlaceHolds F.seen (place_in self.now) s → s.present ≡ place_record (place_in self.now) }
        ensures idle { (s : StoreState) → PlaceHolds F.seen (place_in self.now) s → Ran (either RepresentsStore) s [] (place_seen F.seen (place_in self.now)) (place_seen F.seen (place_in self.now)) }
        ensures state { (s : StoreState) → PlaceHolds F.seen (place_in self.now) s → IsStoreState s }
        ensures held { (s : StoreState) → PlaceHolds F.seen (place_in self.now) s → Shows self.now (held_in s (part_in self.now)) }
        ensures serving { (s : StoreState) → PlaceHolds F.seen (place_in self.now) s → serving_with (serving_in self.now) (held_in s (part_in self.now)) ≡ served_in s (part_in self.now) }
    {
        represented_is_sound();
        blob_parts();
        self.place.known();
    }
}
