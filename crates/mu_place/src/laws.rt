// What holds of every store that is owned.
ghost use Rattle.std.specs.Prelude.{◌≡◌, ℕ, ◌<◌, ◌≤◌, IfSome, None, [], length};
ghost use Rattle.mu_model_flash.specs.Run.{either, Ran};
ghost use Rattle.mu_model_image.specs.Pieces.{block_count};
ghost use Rattle.mu_model_record.specs.declared.BankState.TheVariants.{Filling};
ghost use Rattle.mu_model_record.specs.Record.{IsRecord, IsFilling, entry_of};
ghost use Rattle.mu_model_record.specs.Represents.{RepresentsStore};
ghost use Rattle.mu_model_record.specs.Store.{StoreState};
ghost use Rattle.mu_place.specs.Place.{place_seen, place_fault, place_record, place_filling, place_held, PlaceHolds, HasBlocks};

use crate::place::Place;
use mu_cells::Ways;
use mu_model_flash::laws::runs;
use mu_outside::Flash;

impl<F: Flash> Place<F> {
    /// What holds of every store that is owned. It does nothing.
    pub fn known(&self)
        ensures is_record { place_fault self.now ≡ None → IsRecord (place_record self.now) }
        ensures rests { place_fault self.now ≡ None → place_filling self.now ≡ None → (b : ℕ) → ¬ IsFilling (entry_of (place_record self.now) b) }
        ensures there { IfSome (place_filling self.now) (λ f. f.bank < (place_record self.now).number) }
        ensures entry { IfSome (place_filling self.now) (λ f. entry_of (place_record self.now) f.bank ≡ Filling f.size f.log) }
        ensures few { IfSome (place_filling self.now) (λ f. block_count f.size f.log ≤ 256) }
        ensures as_many { IfSome (place_filling self.now) (λ f. length (place_held self.now) ≡ block_count f.size f.log) }
        ensures none { place_filling self.now ≡ None → place_held self.now ≡ [] }

        // of a state that the flash represents
        ensures present { (s : StoreState) → PlaceHolds F.seen self.now s → s.present ≡ place_record self.now }
        ensures idle { (s : StoreState) → PlaceHolds F.seen self.now s → Ran (either RepresentsStore) s [] (place_seen F.seen self.now) (place_seen F.seen self.now) }
        ensures blocks { (s : StoreState) → PlaceHolds F.seen self.now s → IfSome (place_filling self.now) (λ f. HasBlocks s f.bank (place_held self.now)) }
    {
        runs::<Ways<F>>();
    }
}
