// A bank that is sealed.
ghost use Rattle.std.specs.Prelude.{◌≡◌, ℕ, IsTrue, IfOk, IfSome, None};
ghost use Rattle.std.specs.List.{All};
ghost use Rattle.mu_model_flash.specs.Bits.{part_of};
ghost use Rattle.mu_model_image.specs.Meta.{is_fit};
ghost use Rattle.mu_model_record.specs.Store.{StoreState, bank_place, content_of_bank};
ghost use Rattle.mu_model_record.specs.Next.{record_steps, fresh_after};
ghost use Rattle.mu_model_record.specs.Changes.{blocks_in, joined, sealed_or_not};
ghost use Rattle.mu_place.specs.Place.{place_seen, place_fault, place_record, place_fresh, place_filling, place_bank, place_held, PlaceHolds};
ghost use Rattle.mu_place.specs.Calls.{Answers, KeepsFault, WornAtLast, WornUntouched, HasRisen, PlaceGoes, Fills, closed_record, FitsOctets};

use crate::place::Place;
use core::mem::replace_with;
use mu_image::Meta;
use mu_outside::Flash;
use mu_store::{Sealing, StoreFault, Tag};

fn seal_at<F: Flash>(
    place: Place<F>,
    what: (&Meta, &Tag, &Tag),
) -> (Place<F>, Result<bool, StoreFault>)
    requires fills { Fills place }
    requires all { All IsTrue (place_held place) }
    ensures answers { Answers result.0 result.1 }
    ensures kept { KeepsFault place result.0 result.1 }
    ensures fields { IfOk result.1 (λ fit. place_record result.0 ≡ closed_record (place_record place) (place_bank place) what.entry.0.now what.entry.1.now what.entry.2.now fit) }
    ensures fresh { IfOk result.1 (λ _. place_fresh result.0 ≡ fresh_after (place_fresh place) (place_record result.0)) }
    ensures filling { IfOk result.1 (λ _. place_filling result.0 ≡ None) }
    ensures fit { (s : StoreState) → PlaceHolds F.seen place s → IfOk result.1 (λ fit. fit ≡ is_fit (joined (blocks_in (content_of_bank s (place_bank place)))) what.entry.0.now) }
    ensures octets { FitsOctets F.seen place what.entry.0.now result.1 }
    ensures size { IfOk result.1 (λ fit. IsTrue fit → IfSome (place_filling place) (λ f. f.size ≡ what.entry.0.now.size)) }
    ensures worn { WornAtLast place result.1 }
    ensures untouched { WornUntouched place result.0 result.1 }
    ensures cause { HasRisen F.seen place result.0 result.1 }
    ensures runs { (s : StoreState) → PlaceHolds F.seen place s
        → PlaceGoes F.seen s (record_steps (place_fresh place) s (sealed_or_not s (place_bank place) what.entry.0.now what.entry.1.now what.entry.2.now)) place result.0 result.1 }
{
    let (meta, fit, unfit) = what;
    match place {
        Place::Fill(filling) => match filling.seal(meta, fit, unfit) {
            Ok(Sealing::Fit(store)) => (Place::Rest(store), Ok(true)),
            Ok(Sealing::Unfit(store)) => (Place::Rest(store), Ok(false)),
            Err(stopped) => {
                let why = stopped.why;
                (Place::Halted(stopped), Err(why))
            }
        },
        Place::Rest(_) => unreachable!(),
        Place::Halted(stopped) => {
            let why = stopped.why;
            (Place::Halted(stopped), Err(why))
        }
    }
}

impl<F: Flash> Place<F> {
    /// Reads the bank that is being filled and hashes it, and answers whether its octets fit the metadata. It becomes Sealed, in one record with
    /// the tag `fit`, or Empty, in one with the tag `unfit`. Where no fault is kept a bank is being filled and each of its blocks is held.
    pub fn seal(&mut self, meta: &Meta, fit: &Tag, unfit: &Tag) -> Result<bool, StoreFault>
        requires fills { Fills self.old }
        requires all { All IsTrue (place_held self.old) }
        ensures answers { Answers self.new result }
        ensures kept { KeepsFault self.old self.new result }
        ensures fields { IfOk result (λ is_fit. place_record self.new ≡ closed_record (place_record self.old) (place_bank self.old) meta.now fit.now unfit.now is_fit) }
        ensures fresh { IfOk result (λ _. place_fresh self.new ≡ fresh_after (place_fresh self.old) (place_record self.new)) }
        ensures filling { IfOk result (λ _. place_filling self.new ≡ None) }
        ensures fit { (s : StoreState) → PlaceHolds F.seen self.old s → IfOk result (λ fit. fit ≡ is_fit (joined (blocks_in (content_of_bank s (place_bank self.old)))) meta.now) }
        ensures octets { FitsOctets F.seen self.old meta.now result }
        ensures size { IfOk result (λ fit. IsTrue fit → IfSome (place_filling self.old) (λ f. f.size ≡ meta.now.size)) }
        ensures worn { WornAtLast self.old result }
        ensures untouched { WornUntouched self.old self.new result }
        ensures cause { HasRisen F.seen self.old self.new result }
        ensures runs { (s : StoreState) → PlaceHolds F.seen self.old s
            → PlaceGoes F.seen s (record_steps (place_fresh self.old) s (sealed_or_not s (place_bank self.old) meta.now fit.now unfit.now)) self.old self.new result }
    {
        replace_with(self, (meta, fit, unfit), seal_at)
    }
}
