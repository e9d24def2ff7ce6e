// A store of which one bank is being filled.
ghost use Rattle.std.specs.Prelude.{◌≡◌, ℕ, ◌+◌, ◌-◌, ◌*◌, ◌<◌, ◌≤◌, ◌^◌, ◌↔◌, IfOk, IfErr, IsErrAnd, IsTrue, false, length, take, slice_index, slice_index_or};
ghost use Rattle.mu_model_image.specs.Pieces.{block_count};
ghost use Rattle.mu_model_record.specs.declared.BankState.TheVariants.{Filling};
ghost use Rattle.mu_model_record.specs.Record.{IsRecord, entry_of};
ghost use Rattle.mu_model_record.specs.Store.{mark_place, block_place};
ghost use Rattle.mu_model_record.specs.Props.{bank_set};

use crate::base::Base;
use crate::digest::bank_place;
use crate::entries::with_entry;
use crate::faults::{Stopped, StoreFault};
use crate::laws::known;
use crate::marks::{all_flags, count_flags};
use crate::pages::PAGE;
use crate::store::Store;
use mu_arith::block_count;
use mu_cells::Ways;
use mu_model_flash::laws::runs;
use mu_outside::Flash;
use mu_record::{BankState, Record, Tag};

/// A store of which one bank is being filled. It owns its flash.
#[derive(Drop)]
pub struct Filling<F: Flash> {
    pub(crate) base: Base<F>,
    pub(crate) bank: u8,
    pub(crate) size: u32,
    pub(crate) log: u8,
    pub(crate) held: [bool; 256],
    pub ghost there: { bank < base.fields.number },
    pub ghost few: { block_count size log ≤ 256 },
    pub ghost as_many: { length (take (block_count size log) held) ≡ block_count size log },
    pub ghost entry: { entry_of base.fields bank ≡ Filling size log } by { bank_set (entry_of base.fields bank) (Filling size log) },
    ghost unset: { IsTrue (F.seen base.flash).told → (i : ℕ) → i < block_count size log → slice_index_or held i false ≡ false → slice_index (F.seen base.flash).octets (mark_place bank i) ≡ 0xFF },
}

// The page at which a block begins.
fn block_page(fields: &Record, bank: u8, log: u8, i: u16) -> u32
    requires in_range { IsRecord fields.now }
    requires there { bank < fields.now.number }
    requires log_least { 12 ≤ log }
    requires log_most { log ≤ 14 }
    requires few { i < 256 }
    ensures { 4096 * result ≡ block_place fields.now bank log i }
{
    (bank_place(fields, bank) + ((i as u32) << log)) / PAGE
}

impl<F: Flash> Filling<F> {
    ghost use Rattle.std.specs.Prelude.{slice_set, is_some, true};
    ghost use Rattle.std.specs.List.{All, count_by};
    ghost use Rattle.mu_model_image.specs.Pieces.{block_length, piece_count};
    ghost use Rattle.mu_model_flash.specs.Run.{either, Goes};
    ghost use Rattle.mu_model_record.specs.Store.{StoreState, content_of_bank};
    ghost use Rattle.mu_model_record.specs.Represents.{RepresentsStore};
    ghost use Rattle.mu_model_record.specs.Next.{record_steps, block_steps, fresh_after};
    ghost use Rattle.mu_model_record.specs.declared.BankState.TheVariants.{Empty};
    ghost use Rattle.mu_model_record.specs.Changes.{next_record, tagged, emptied, blocks_in, with_block};
    ghost use Rattle.mu_store.specs.Booted.{FillingHolds};
    ghost use Rattle.mu_store.specs.View.{store_flash, store_record, store_fresh, StoreHolds, stopped_seen, ByFlash, StoreFaults};
    ghost use Rattle.mu_store.specs.FillingView.{filling_flash, filling_record, filling_fresh, filling_bank, filling_size, filling_log, filling_flags, IsFillingOf, FillingFaults};

    /// Writes one record with this tag, all else as it was. `Worn` comes where the count stands at 4,294,967,295, before anything is written.
    pub fn commit(self, tag: &Tag) -> Result<Filling<F>, Stopped<F>>
        ensures fields { IfOk result (λ filling. filling_record filling ≡ next_record (filling_record self) (filling_record self).banks tag.now) }
        ensures bank { IfOk result (IsFillingOf (filling_bank self) (filling_size self) (filling_log self) (filling_flags self)) }
        ensures fresh { IfOk result (λ filling. filling_fresh filling ≡ fresh_after (filling_fresh self) (filling_record filling)) }
        ensures worn { IsErrAnd result (λ stopped. stopped.why ≡ StoreFault.Worn) ↔ ((filling_record self).count ≡ 2 ^ 32 - 1) }
        ensures untouched { IfErr result (λ stopped. stopped.why ≡ StoreFault.Worn → stopped.flash ≡ filling_flash self) }
        ensures runs { (d : StoreState) → FillingHolds F.seen self d
            → Goes (either RepresentsStore) d (record_steps (filling_fresh self) d (tagged d tag.now)) (F.seen (filling_flash self))
            (λ filling. F.seen (filling_flash filling)) (stopped_seen F.seen) (FillingHolds F.seen) ByFlash result }
        ensures cause { FillingFaults (F.seen (filling_flash self)) F.seen result }
    {
        known();
        let Filling {
            base,
            bank,
            size,
            log,
            held,
        } = self;
        if base.fields.count == u32::MAX {
            return Err(Stopped {
                why: StoreFault::Worn,
                flash: base.flash,
            });
        }
        let fields = Record {
            count: base.fields.count + 1,
            pages: base.fields.pages,
            number: base.fields.number,
            banks: base.fields.banks,
            tag: *tag,
        };
        match base.write(fields) {
            Ok(base) => Ok(Filling {
                base,
                bank,
                size,
                log,
                held,
            }),
            Err(stopped) => Err(stopped),
        }
    }

    /// Puts a block: erases its pages, programs them and sets its mark. The block isn't held, and the octets are as many as it has.
    pub fn put_block(self, i: u16, octets: &[u8]) -> Result<Filling<F>, Stopped<F>>
        requires there { i < block_count (filling_size self) (filling_log self) }
        requires whole { length octets.now ≡ block_length (filling_size self) (filling_log self) i }
        requires free { slice_index_or (filling_flags self) i false ≡ false }
        ensures fields { IfOk result (λ filling. filling_record filling ≡ filling_record self) }
        ensures bank { IfOk result (IsFillingOf (filling_bank self) (filling_size self) (filling_log self) (slice_set (filling_flags self) i true)) }
        ensures fresh { IfOk result (λ filling. filling_fresh filling ≡ filling_fresh self) }
        ensures why { IfErr result (λ stopped. stopped.why ≡ StoreFault.Flash) }
        ensures runs { (d : StoreState) → FillingHolds F.seen self d
            → Goes (either RepresentsStore) d (block_steps (piece_count (length octets.now) 4096) d (with_block d (filling_bank self) i octets.now)) (F.seen (filling_flash self))
            (λ filling. F.seen (filling_flash filling)) (stopped_seen F.seen) (FillingHolds F.seen) ByFlash result }
        ensures cause { FillingFaults (F.seen (filling_flash self)) F.seen result }
    {
        known();
        runs::<Ways<F>>();
        let Filling {
            base,
            bank,
            size,
            log,
            mut held,
        } = self;
        let first = block_page(&base.fields, bank, log, i);
        let put = match base.put(first, octets) {
            Ok(put) => put,
            Err(stopped) => return Err(stopped),
        };
        match put.set_mark(PAGE * (2 + bank as u32) + i as u32) {
            Ok(base) => {
                held[i as usize] = true;
                Ok(Filling {
                    base,
                    bank,
                    size,
                    log,
                    held,
                })
            }
            Err(stopped) => Err(stopped),
        }
    }

    /// The bank becomes Empty, in one record with this tag.
    pub fn give_up(self, tag: &Tag) -> Result<Store<F>, Stopped<F>>
        ensures fields { IfOk result (λ store. store_record store ≡ next_record (filling_record self) (slice_set (filling_record self).banks (filling_bank self) Empty) tag.now) }
        ensures fresh { IfOk result (λ store. store_fresh store ≡ fresh_after (filling_fresh self) (store_record store)) }
        ensures worn { IsErrAnd result (λ stopped. stopped.why ≡ StoreFault.Worn) ↔ ((filling_record self).count ≡ 2 ^ 32 - 1) }
        ensures untouched { IfErr result (λ stopped. stopped.why ≡ StoreFault.Worn → stopped.flash ≡ filling_flash self) }
        ensures runs { (d : StoreState) → FillingHolds F.seen self d
            → Goes (either RepresentsStore) d (record_steps (filling_fresh self) d (emptied d (filling_bank self) tag.now)) (F.seen (filling_flash self))
            (λ store. F.seen (store_flash store)) (stopped_seen F.seen) (StoreHolds F.seen) ByFlash result }
        ensures cause { StoreFaults (F.seen (filling_flash self)) F.seen result }
    {
        known();
        let Filling {
            base,
            bank,
            size: _,
            log: _,
            held: _,
        } = self;
        if base.fields.count == u32::MAX {
            return Err(Stopped {
                why: StoreFault::Worn,
                flash: base.flash,
            });
        }
        let fields = Record {
            count: base.fields.count + 1,
            pages: base.fields.pages,
            number: base.fields.number,
            banks: with_entry(&base.fields.banks, bank, BankState::Empty),
            tag: *tag,
        };
        match base.write(fields) {
            Ok(base) => Ok(Store { base }),
            Err(stopped) => Err(stopped),
        }
    }

    /// The tag of the present record.
    pub fn tag(&self) -> &Tag
        ensures { result.now ≡ (filling_record self.now).tag }
    {
        &self.base.fields.tag
    }

    /// The count of the present record.
    pub fn count(&self) -> u32
        ensures { result ≡ (filling_record self.now).count }
    {
        self.base.fields.count
    }

    /// How many banks there are, 2..4.
    pub fn banks(&self) -> u8
        ensures { result ≡ (filling_record self.now).number }
    {
        self.base.fields.number
    }

    /// The octets of a bank.
    pub fn capacity(&self) -> u32
        ensures { result ≡ 4096 * (filling_record self.now).pages }
    {
        4096 * self.base.fields.pages as u32
    }

    /// What the present record says of a bank. The bank is below `banks()`.
    pub fn bank_state(&self, b: u8) -> BankState
        requires { b < (filling_record self.now).number }
        ensures { result ≡ entry_of (filling_record self.now) b }
    {
        self.base.fields.banks[b as usize]
    }

    /// The bank that is being filled.
    pub fn bank(&self) -> u8
        ensures { result ≡ filling_bank self.now }
    {
        self.bank
    }

    /// The octets of the image that fills it.
    pub fn size(&self) -> u32
        ensures { result ≡ filling_size self.now }
    {
        self.size
    }

    /// The log of its blocks, 12..14.
    pub fn log(&self) -> u8
        ensures { result ≡ filling_log self.now }
    {
        self.log
    }

    /// Whether block `i` is held; past the last block none is.
    pub fn held(&self, i: u16) -> bool
        ensures { result ≡ slice_index_or (filling_flags self.now) i false }
    {
        if i < block_count(self.size, self.log) {
            self.held[i as usize]
        } else {
            false
        }
    }

    /// Whether every block is held, as `seal` asks for.
    pub fn all_held(&self) -> bool
        ensures { IsTrue result ↔ All IsTrue (filling_flags self.now) }
    {
        all_flags(&self.held, block_count(self.size, self.log))
    }

    /// How many blocks are held.
    pub fn held_count(&self) -> u16
        ensures flags { result ≡ count_by (λ held. held) (filling_flags self.now) }
        ensures state { (d : StoreState) → FillingHolds F.seen self.now d → result ≡ count_by is_some (blocks_in (content_of_bank d (filling_bank self.now))) }
    {
        known();
        count_flags(&self.held, block_count(self.size, self.log))
    }

    /// How many slots after the present record's may still be written by this run, 0..3.
    pub fn fresh(&self) -> u8
        ensures { result ≡ filling_fresh self.now }
    {
        self.base.place.fresh
    }

    /// The flash that it owns.
    pub fn flash(&self) -> &F
        ensures { result.now ≡ filling_flash self.now }
    {
        &self.base.flash
    }

    /// The flash that it owned.
    pub fn into_flash(self) -> F
        ensures { result ≡ filling_flash self }
    {
        self.base.flash
    }
}
