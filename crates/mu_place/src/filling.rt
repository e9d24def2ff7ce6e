// A bank that is being filled.
ghost use Rattle.std.specs.Prelude.{◌≡◌, ℕ, ◌*◌, ◌<◌, ◌≤◌, ◌∷◌, IfOk, IfErr, None, Some, false, true, length, replicate, slice_set};
ghost use Rattle.mu_model_image.specs.Pieces.{block_count, piece_count};
ghost use Rattle.mu_model_record.specs.Store.{StoreState};
ghost use Rattle.mu_model_record.specs.Next.{record_steps, block_steps, fresh_after};
ghost use Rattle.mu_model_record.specs.Changes.{next_record, begun, filling_entry, with_block};
ghost use Rattle.mu_place.specs.Place.{place_fault, place_record, place_fresh, place_filling, place_bank, place_held, PlaceHolds};
ghost use Rattle.mu_place.specs.Calls.{Answers, KeepsFault, WornAtLast, WornUntouched, HasRisen, PlaceGoes, CanPut};

use crate::place::{FillingBank, Place};
use core::mem::replace_with;
use mu_outside::Flash;
use mu_store::{StoreFault, Tag};

fn begin_at<F: Flash>(
    place: Place<F>,
    what: (FillingBank, &Tag),
) -> (Place<F>, Result<(), StoreFault>)
    requires rests { place_filling place ≡ None }
    requires there { place_fault place ≡ None → what.0.bank < (place_record place).number }
    requires some { 0 < what.0.size }
    requires most { place_fault place ≡ None → what.0.size ≤ 4096 * (place_record place).pages }
    requires log_least { 12 ≤ what.0.log }
    requires log_most { what.0.log ≤ 14 }
    ensures answers { Answers result.0 result.1 }
    ensures kept { KeepsFault place result.0 result.1 }
    ensures fields { IfOk result.1 (λ _. place_record result.0 ≡ next_record (place_record place) (slice_set (place_record place).banks what.entry.0.bank (filling_entry what.entry.0.size what.entry.0.log)) what.entry.1.now) }
    ensures fresh { IfOk result.1 (λ _. place_fresh result.0 ≡ fresh_after (place_fresh place) (place_record result.0)) }
    ensures filling { IfOk result.1 (λ _. place_filling result.0 ≡ Some what.entry.0) }
    ensures held { IfOk result.1 (λ _. place_held result.0 ≡ replicate (block_count what.entry.0.size what.entry.0.log) false) }
    ensures worn { WornAtLast place result.1 }
    ensures untouched { WornUntouched place result.0 result.1 }
    ensures cause { HasRisen F.seen place result.0 result.1 }
    ensures runs { (s : StoreState) → PlaceHolds F.seen place s
        → PlaceGoes F.seen s (s ∷ record_steps (place_fresh place) s (begun s what.entry.0.bank what.entry.0.size what.entry.0.log what.entry.1.now)) place result.0 result.1 }
{
    let (filling, tag) = what;
    match place {
        Place::Rest(store) => match store.begin(filling.bank, filling.size, filling.log, tag) {
            Ok(filling) => (Place::Fill(filling), Ok(())),
            Err(stopped) => {
                let why = stopped.why;
                (Place::Halted(stopped), Err(why))
            }
        },
        Place::Fill(_) => unreachable!(),
        Place::Halted(stopped) => {
            let why = stopped.why;
            (Place::Halted(stopped), Err(why))
        }
    }
}

fn put_at<F: Flash>(place: Place<F>, block: (u16, &[u8])) -> (Place<F>, Result<(), StoreFault>)
    requires { place_fault place ≡ None → CanPut block.0 (length block.1.now) place }
    ensures answers { Answers result.0 result.1 }
    ensures kept { KeepsFault place result.0 result.1 }
    ensures fields { IfOk result.1 (λ _. place_record result.0 ≡ place_record place) }
    ensures fresh { IfOk result.1 (λ _. place_fresh result.0 ≡ place_fresh place) }
    ensures filling { IfOk result.1 (λ _. place_filling result.0 ≡ place_filling place) }
    ensures held { IfOk result.1 (λ _. place_held result.0 ≡ slice_set (place_held place) block.entry.0 true) }
    ensures why { place_fault place ≡ None → IfErr result.1 (λ why. why ≡ StoreFault.Flash) }
    ensures cause { HasRisen F.seen place result.0 result.1 }
    ensures runs { (s : StoreState) → PlaceHolds F.seen place s
        → PlaceGoes F.seen s (block_steps (piece_count (length block.entry.1.now) 4096) s (with_block s (place_bank place) block.entry.0 block.entry.1.now)) place result.0 result.1 }
{
    let (i, octets) = block;
    match place {
        Place::Fill(filling) => match filling.put_block(i, octets) {
            Ok(filling) => (Place::Fill(filling), Ok(())),
            Err(stopped) => {
                let why = stopped.why;
                (Place::Halted(stopped), Err(why))
            }
        },
        Place::Rest(_) => unreachable!(),
        Place::Halted(stopped) => {
            let why = stopped.why;
            (Place::Halted(stopped), Err(why))
        }
    }
}

impl<F: Flash> Place<F> {
    /// The bank, Empty or Sealed before, becomes Filling: its mark page is erased, and one record is written with this tag. No bank is being
    /// filled; where no fault is kept the bank is below `banks()` and the size 1 to the capacity. The log is 12..14.
    pub fn begin(&mut self, filling: FillingBank, tag: &Tag) -> Result<(), StoreFault>
        requires rests { place_filling self.old ≡ None }
        requires there { place_fault self.old ≡ None → filling.bank < (place_record self.old).number }
        requires some { 0 < filling.size }
        requires most { place_fault self.old ≡ None → filling.size ≤ 4096 * (place_record self.old).pages }
        requires log_least { 12 ≤ filling.log }
        requires log_most { filling.log ≤ 14 }
        ensures answers { Answers self.new result }
        ensures kept { KeepsFault self.old self.new result }
        ensures fields { IfOk result (λ _. place_record self.new ≡ next_record (place_record self.old) (slice_set (place_record self.old).banks filling.bank (filling_entry filling.size filling.log)) tag.now) }
        ensures fresh { IfOk result (λ _. place_fresh self.new ≡ fresh_after (place_fresh self.old) (place_record self.new)) }
        ensures filling { IfOk result (λ _. place_filling self.new ≡ Some filling) }
        ensures held { IfOk result (λ _. place_held self.new ≡ replicate (block_count filling.size filling.log) false) }
        ensures worn { WornAtLast self.old result }
        ensures untouched { WornUntouched self.old self.new result }
        ensures cause { HasRisen F.seen self.old self.new result }
        ensures runs { (s : StoreState) → PlaceHolds F.seen self.old s
            → PlaceGoes F.seen s (s ∷ record_steps (place_fresh self.old) s (begun s filling.bank filling.size filling.log tag.now)) self.old self.new result }
    {
        replace_with(self, (filling, tag), begin_at)
    }

    /// Puts a block of the bank that is being filled: erases its pages, programs them and sets its mark. Where no fault is kept the block isn't
    /// held, and the octets are as many as it has.
    pub fn put_block(&mut self, i: u16, octets: &[u8]) -> Result<(), StoreFault>
        requires { place_fault self.old ≡ None → CanPut i (length octets.now) self.old }
        ensures answers { Answers self.new result }
        ensures kept { KeepsFault self.old self.new result }
        ensures fields { IfOk result (λ _. place_record self.new ≡ place_record self.old) }
        ensures fresh { IfOk result (λ _. place_fresh self.new ≡ place_fresh self.old) }
        ensures filling { IfOk result (λ _. place_filling self.new ≡ place_filling self.old) }
        ensures held { IfOk result (λ _. place_held self.new ≡ slice_set (place_held self.old) i true) }
        ensures why { place_fault self.old ≡ None → IfErr result (λ why. why ≡ StoreFault.Flash) }
        ensures cause { HasRisen F.seen self.old self.new result }
        ensures runs { (s : StoreState) → PlaceHolds F.seen self.old s
            → PlaceGoes F.seen s (block_steps (piece_count (length octets.now) 4096) s (with_block s (place_bank self.old) i octets.now)) self.old self.new result }
    {
        replace_with(self, (i, octets), put_at)
    }
}
