// A store of which no bank is being filled.
ghost use Rattle.std.specs.Prelude.{◌≡◌, ℕ, ◌+◌, ◌-◌, ◌*◌, ◌<◌, ◌^◌, ◌↔◌, ◌≤◌, ◌∷◌, slice_set, replicate, IfOk, IfErr, IsErrAnd, Some, None, false};
ghost use Rattle.mu_model_record.specs.Record.{IsFilling, entry_of};

use crate::base::Base;
use crate::entries::{cleared, with_entry};
use crate::faults::{Stopped, StoreFault};
use crate::filling::Filling;
use crate::laws::known;
use crate::marks::no_flags;
use mu_cells::Ways;
use mu_model_flash::laws::runs;
use mu_outside::Flash;
use mu_record::{BankState, Record, Tag};

/// A store of which no bank is being filled. It owns its flash.
#[derive(Drop)]
pub struct Store<F: Flash> {
    pub(crate) base: Base<F>,
    pub ghost rests: { (b : ℕ) → ¬ IsFilling (entry_of base.fields b) },
}

impl<F: Flash> Store<F> {
    ghost use Rattle.mu_model_flash.specs.Run.{either, Goes};
    ghost use Rattle.mu_model_record.specs.Store.{StoreState};
    ghost use Rattle.mu_model_record.specs.Represents.{RepresentsStore};
    ghost use Rattle.mu_model_record.specs.Next.{record_steps, fresh_after};
    ghost use Rattle.mu_model_record.specs.Changes.{next_record, tagged, released, cleared, begun, filling_entry};
    ghost use Rattle.mu_model_record.specs.declared.BankState.TheVariants.{Empty};
    ghost use Rattle.mu_model_image.specs.Pieces.{block_count};
    ghost use Rattle.mu_store.specs.Booted.{FillingHolds};
    ghost use Rattle.mu_store.specs.View.{store_flash, store_record, store_fresh, StoreHolds, stopped_seen, ByFlash, StoreFaults};
    ghost use Rattle.mu_store.specs.FillingView.{filling_flash, filling_record, filling_fresh, IsFillingOf, FillingFaults};

    /// Writes one record with this tag, all else as it was. `Worn` comes where the count stands at 4,294,967,295, before anything is written.
    pub fn commit(self, tag: &Tag) -> Result<Store<F>, Stopped<F>>
        ensures fields { IfOk result (λ store. store_record store ≡ next_record (store_record self) (store_record self).banks tag.now) }
        ensures fresh { IfOk result (λ store. store_fresh store ≡ fresh_after (store_fresh self) (store_record store)) }
        ensures worn { IsErrAnd result (λ stopped. stopped.why ≡ StoreFault.Worn) ↔ ((store_record self).count ≡ 2 ^ 32 - 1) }
        ensures untouched { IfErr result (λ stopped. stopped.why ≡ StoreFault.Worn → stopped.flash ≡ store_flash self) }
        ensures runs { (d : StoreState) → StoreHolds F.seen self d
            → Goes (either RepresentsStore) d (record_steps (store_fresh self) d (tagged d tag.now)) (F.seen (store_flash self))
            (λ store. F.seen (store_flash store)) (stopped_seen F.seen) (StoreHolds F.seen) ByFlash result }
        ensures cause { StoreFaults (F.seen (store_flash self)) F.seen result }
    {
        known();
        let Store { base } = self;
        if base.fields.count == u32::MAX {
            return Err(Stopped {
                why: StoreFault::Worn,
                flash: base.flash,
            });
        }
        let fields = Record {
            count: base.fields.count + 1,
            pages: base.fields.pages,
            number: base.fields.number,
            banks: base.fields.banks,
            tag: *tag,
        };
        match base.write(fields) {
            Ok(base) => Ok(Store { base }),
            Err(stopped) => Err(stopped),
        }
    }

    /// The named banks become Empty, in one record with this tag.
    pub fn release(self, banks: [bool; 4], tag: &Tag) -> Result<Store<F>, Stopped<F>>
        ensures fields { IfOk result (λ store. store_record store ≡ next_record (store_record self) (cleared Empty banks (store_record self).banks) tag.now) }
        ensures fresh { IfOk result (λ store. store_fresh store ≡ fresh_after (store_fresh self) (store_record store)) }
        ensures worn { IsErrAnd result (λ stopped. stopped.why ≡ StoreFault.Worn) ↔ ((store_record self).count ≡ 2 ^ 32 - 1) }
        ensures untouched { IfErr result (λ stopped. stopped.why ≡ StoreFault.Worn → stopped.flash ≡ store_flash self) }
        ensures runs { (d : StoreState) → StoreHolds F.seen self d
            → Goes (either RepresentsStore) d (record_steps (store_fresh self) d (released d banks tag.now)) (F.seen (store_flash self))
            (λ store. F.seen (store_flash store)) (stopped_seen F.seen) (StoreHolds F.seen) ByFlash result }
        ensures cause { StoreFaults (F.seen (store_flash self)) F.seen result }
    {
        known();
        let Store { base } = self;
        if base.fields.count == u32::MAX {
            return Err(Stopped {
                why: StoreFault::Worn,
                flash: base.flash,
            });
        }
        let fields = Record {
            count: base.fields.count + 1,
            pages: base.fields.pages,
            number: base.fields.number,
            banks: cleared(&base.fields.banks, &banks),
            tag: *tag,
        };
        match base.write(fields) {
            Ok(base) => Ok(Store { base }),
            Err(stopped) => Err(stopped),
        }
    }

    /// The bank, Empty or Sealed before, becomes Filling: its mark page is erased, and then one record is written with this tag. The bank is below
    /// `banks()`, the size 1 to the capacity, the log 12..14.
    pub fn begin(self, bank: u8, size: u32, log: u8, tag: &Tag) -> Result<Filling<F>, Stopped<F>>
        requires there { bank < (store_record self).number }
        requires some { 0 < size }
        requires most { size ≤ 4096 * (store_record self).pages }
        requires log_least { 12 ≤ log }
        requires log_most { log ≤ 14 }
        ensures fields { IfOk result (λ filling. filling_record filling ≡ next_record (store_record self) (slice_set (store_record self).banks bank (filling_entry size log)) tag.now) }
        ensures bank { IfOk result (λ filling. IsFillingOf bank size log (replicate (block_count size log) false) filling) }
        ensures fresh { IfOk result (λ filling. filling_fresh filling ≡ fresh_after (store_fresh self) (filling_record filling)) }
        ensures worn { IsErrAnd result (λ stopped. stopped.why ≡ StoreFault.Worn) ↔ ((store_record self).count ≡ 2 ^ 32 - 1) }
        ensures untouched { IfErr result (λ stopped. stopped.why ≡ StoreFault.Worn → stopped.flash ≡ store_flash self) }
        ensures runs { (d : StoreState) → StoreHolds F.seen self d
            → Goes (either RepresentsStore) d (d ∷ record_steps (store_fresh self) d (begun d bank size log tag.now)) (F.seen (store_flash self))
            (λ filling. F.seen (filling_flash filling)) (stopped_seen F.seen) (FillingHolds F.seen) ByFlash result }
        ensures cause { FillingFaults (F.seen (store_flash self)) F.seen result }
    {
        known();
        runs::<Ways<F>>();
        let Store { base } = self;
        if base.fields.count == u32::MAX {
            return Err(Stopped {
                why: StoreFault::Worn,
                flash: base.flash,
            });
        }
        let entry = BankState::Filling { size, log };
        let fields = Record {
            count: base.fields.count + 1,
            pages: base.fields.pages,
            number: base.fields.number,
            banks: with_entry(&base.fields.banks, bank, entry),
            tag: *tag,
        };
        let erased = match base.erase_marks(bank) {
            Ok(erased) => erased,
            Err(stopped) => return Err(stopped),
        };
        match erased.write(fields) {
            Ok(base) => {
                let held = no_flags();
                Ok(Filling {
                    base,
                    bank,
                    size,
                    log,
                    held,
                })
            }
            Err(stopped) => Err(stopped),
        }
    }

    /// The tag of the present record.
    pub fn tag(&self) -> &Tag
        ensures { result.now ≡ (store_record self.now).tag }
    {
        &self.base.fields.tag
    }

    /// The count of the present record.
    pub fn count(&self) -> u32
        ensures { result ≡ (store_record self.now).count }
    {
        self.base.fields.count
    }

    /// How many banks there are, 2..4.
    pub fn banks(&self) -> u8
        ensures { result ≡ (store_record self.now).number }
    {
        self.base.fields.number
    }

    /// The octets of a bank.
    pub fn capacity(&self) -> u32
        ensures { result ≡ 4096 * (store_record self.now).pages }
    {
        4096 * self.base.fields.pages as u32
    }

    /// What the present record says of a bank. The bank is below `banks()`.
    pub fn bank_state(&self, b: u8) -> BankState
        requires { b < (store_record self.now).number }
        ensures { result ≡ entry_of (store_record self.now) b }
    {
        self.base.fields.banks[b as usize]
    }

    /// How many slots after the present record's may still be written by this run, 0..3.
    pub fn fresh(&self) -> u8
        ensures { result ≡ store_fresh self.now }
    {
        self.base.place.fresh
    }

    /// The flash that it owns.
    pub fn flash(&self) -> &F
        ensures { result.now ≡ store_flash self.now }
    {
        &self.base.flash
    }

    /// The flash that it owned.
    pub fn into_flash(self) -> F
        ensures { result ≡ store_flash self }
    {
        self.base.flash
    }
}
