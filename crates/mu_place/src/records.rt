// Calls that write one record.
ghost use Rattle.std.specs.Prelude.{◌≡◌, ℕ, IfOk, None, slice_set};
ghost use Rattle.mu_model_record.specs.Store.{StoreState};
ghost use Rattle.mu_model_record.specs.Next.{record_steps, fresh_after};
ghost use Rattle.mu_model_record.specs.Changes.{next_record, tagged, released, emptied, cleared};
ghost use Rattle.mu_model_record.specs.declared.BankState.TheVariants.{Empty};
ghost use Rattle.mu_place.specs.Place.{place_fault, place_record, place_fresh, place_filling, place_bank, place_held, PlaceHolds};
ghost use Rattle.mu_place.specs.Calls.{Answers, KeepsFault, WornAtLast, WornUntouched, HasRisen, PlaceGoes, Fills};

use crate::place::Place;
use core::mem::replace_with;
use mu_outside::Flash;
use mu_store::{StoreFault, Tag};

fn committed<F: Flash>(place: Place<F>, tag: &Tag) -> (Place<F>, Result<(), StoreFault>)
    ensures answers { Answers result.0 result.1 }
    ensures kept { KeepsFault place result.0 result.1 }
    ensures fields { IfOk result.1 (λ _. place_record result.0 ≡ next_record (place_record place) (place_record place).banks tag.now) }
    ensures fresh { IfOk result.1 (λ _. place_fresh result.0 ≡ fresh_after (place_fresh place) (place_record result.0)) }
    ensures filling { IfOk result.1 (λ _. place_filling result.0 ≡ place_filling place) }
    ensures held { IfOk result.1 (λ _. place_held result.0 ≡ place_held place) }
    ensures worn { WornAtLast place result.1 }
    ensures untouched { WornUntouched place result.0 result.1 }
    ensures cause { HasRisen F.seen place result.0 result.1 }
    ensures runs { (s : StoreState) → PlaceHolds F.seen place s → PlaceGoes F.seen s (record_steps (place_fresh place) s (tagged s tag.now)) place result.0 result.1 }
{
    match place {
        Place::Rest(store) => match store.commit(tag) {
            Ok(store) => (Place::Rest(store), Ok(())),
            Err(stopped) => {
                let why = stopped.why;
                (Place::Halted(stopped), Err(why))
            }
        },
        Place::Fill(filling) => match filling.commit(tag) {
            Ok(filling) => (Place::Fill(filling), Ok(())),
            Err(stopped) => {
                let why = stopped.why;
                (Place::Halted(stopped), Err(why))
            }
        },
        Place::Halted(stopped) => {
            let why = stopped.why;
            (Place::Halted(stopped), Err(why))
        }
    }
}

fn release_at<F: Flash>(
    place: Place<F>,
    what: ([bool; 4], &Tag),
) -> (Place<F>, Result<(), StoreFault>)
    requires { place_filling place ≡ None }
    ensures answers { Answers result.0 result.1 }
    ensures kept { KeepsFault place result.0 result.1 }
    ensures fields { IfOk result.1 (λ _. place_record result.0 ≡ next_record (place_record place) (cleared Empty what.entry.0 (place_record place).banks) what.entry.1.now) }
    ensures fresh { IfOk result.1 (λ _. place_fresh result.0 ≡ fresh_after (place_fresh place) (place_record result.0)) }
    ensures filling { IfOk result.1 (λ _. place_filling result.0 ≡ None) }
    ensures worn { WornAtLast place result.1 }
    ensures untouched { WornUntouched place result.0 result.1 }
    ensures cause { HasRisen F.seen place result.0 result.1 }
    ensures runs { (s : StoreState) → PlaceHolds F.seen place s → PlaceGoes F.seen s (record_steps (place_fresh place) s (released s what.entry.0 what.entry.1.now)) place result.0 result.1 }
{
    let (banks, tag) = what;
    match place {
        Place::Rest(store) => match store.release(banks, tag) {
            Ok(store) => (Place::Rest(store), Ok(())),
            Err(stopped) => {
                let why = stopped.why;
                (Place::Halted(stopped), Err(why))
            }
        },
        Place::Fill(_) => unreachable!(),
        Place::Halted(stopped) => {
            let why = stopped.why;
            (Place::Halted(stopped), Err(why))
        }
    }
}

fn give_up_at<F: Flash>(place: Place<F>, tag: &Tag) -> (Place<F>, Result<(), StoreFault>)
    requires { Fills place }
    ensures answers { Answers result.0 result.1 }
    ensures kept { KeepsFault place result.0 result.1 }
    ensures fields { IfOk result.1 (λ _. place_record result.0 ≡ next_record (place_record place) (slice_set (place_record place).banks (place_bank place) Empty) tag.now) }
    ensures fresh { IfOk result.1 (λ _. place_fresh result.0 ≡ fresh_after (place_fresh place) (place_record result.0)) }
    ensures filling { IfOk result.1 (λ _. place_filling result.0 ≡ None) }
    ensures worn { WornAtLast place result.1 }
    ensures untouched { WornUntouched place result.0 result.1 }
    ensures cause { HasRisen F.seen place result.0 result.1 }
    ensures runs { (s : StoreState) → PlaceHolds F.seen place s → PlaceGoes F.seen s (record_steps (place_fresh place) s (emptied s (place_bank place) tag.now)) place result.0 result.1 }
{
    match place {
        Place::Fill(filling) => match filling.give_up(tag) {
            Ok(store) => (Place::Rest(store), Ok(())),
            Err(stopped) => {
                let why = stopped.why;
                (Place::Halted(stopped), Err(why))
            }
        },
        Place::Rest(_) => unreachable!(),
        Place::Halted(stopped) => {
            let why = stopped.why;
            (Place::Halted(stopped), Err(why))
        }
    }
}

impl<F: Flash> Place<F> {
    /// Writes one record with this tag, all else as it was.
    pub fn commit(&mut self, tag: &Tag) -> Result<(), StoreFault>
        ensures answers { Answers self.new result }
        ensures kept { KeepsFault self.old self.new result }
        ensures fields { IfOk result (λ _. place_record self.new ≡ next_record (place_record self.old) (place_record self.old).banks tag.now) }
        ensures fresh { IfOk result (λ _. place_fresh self.new ≡ fresh_after (place_fresh self.old) (place_record self.new)) }
        ensures filling { IfOk result (λ _. place_filling self.new ≡ place_filling self.old) }
        ensures held { IfOk result (λ _. place_held self.new ≡ place_held self.old) }
        ensures worn { WornAtLast self.old result }
        ensures untouched { WornUntouched self.old self.new result }
        ensures cause { HasRisen F.seen self.old self.new result }
        ensures runs { (s : StoreState) → PlaceHolds F.seen self.old s → PlaceGoes F.seen s (record_steps (place_fresh self.old) s (tagged s tag.now)) self.old self.new result }
    {
        replace_with(self, tag, committed)
    }

    /// The named banks become Empty, in one record with this tag. No bank is being filled.
    pub fn release(&mut self, banks: [bool; 4], tag: &Tag) -> Result<(), StoreFault>
        requires { place_filling self.old ≡ None }
        ensures answers { Answers self.new result }
        ensures kept { KeepsFault self.old self.new result }
        ensures fields { IfOk result (λ _. place_record self.new ≡ next_record (place_record self.old) (cleared Empty banks (place_record self.old).banks) tag.now) }
        ensures fresh { IfOk result (λ _. place_fresh self.new ≡ fresh_after (place_fresh self.old) (place_record self.new)) }
        ensures filling { IfOk result (λ _. place_filling self.new ≡ None) }
        ensures worn { WornAtLast self.old result }
        ensures untouched { WornUntouched self.old self.new result }
        ensures cause { HasRisen F.seen self.old self.new result }
        ensures runs { (s : StoreState) → PlaceHolds F.seen self.old s → PlaceGoes F.seen s (record_steps (place_fresh self.old) s (released s banks tag.now)) self.old self.new result }
    {
        replace_with(self, (banks, tag), release_at)
    }

    /// The bank that is being filled becomes Empty, in one record with this tag. Where no fault is kept a bank is being filled.
    pub fn give_up(&mut self, tag: &Tag) -> Result<(), StoreFault>
        requires { Fills self.old }
        ensures answers { Answers self.new result }
        ensures kept { KeepsFault self.old self.new result }
        ensures fields { IfOk result (λ _. place_record self.new ≡ next_record (place_record self.old) (slice_set (place_record self.old).banks (place_bank self.old) Empty) tag.now) }
        ensures fresh { IfOk result (λ _. place_fresh self.new ≡ fresh_after (place_fresh self.old) (place_record self.new)) }
        ensures filling { IfOk result (λ _. place_filling self.new ≡ None) }
        ensures worn { WornAtLast self.old result }
        ensures untouched { WornUntouched self.old self.new result }
        ensures cause { HasRisen F.seen self.old self.new result }
        ensures runs { (s : StoreState) → PlaceHolds F.seen self.old s → PlaceGoes F.seen s (record_steps (place_fresh self.old) s (emptied s (place_bank self.old) tag.now)) self.old self.new result }
    {
        replace_with(self, tag, give_up_at)
    }
}
