// A bank that is sealed.
ghost use Rattle.std.specs.Prelude.{◌≡◌, ℕ, ◌-◌, ◌<◌, ◌^◌, ◌↔◌, true, IfOk, IfErr, IsErrAnd, IsTrue, MatchResult, slice_set};
ghost use Rattle.std.specs.List.{All};
ghost use Rattle.mu_model_flash.specs.Bits.{AreOctets, part_of};
ghost use Rattle.mu_model_flash.specs.Flash.{Unchanged};
ghost use Rattle.mu_model_flash.specs.Run.{either, Ran, Broke, Goes};
ghost use Rattle.mu_model_image.specs.Meta.{is_fit, IsMeta};
ghost use Rattle.mu_model_record.specs.Store.{StoreState, bank_place, content_of_bank};
ghost use Rattle.mu_model_record.specs.Represents.{RepresentsStore};
ghost use Rattle.mu_model_record.specs.Next.{IsNext, record_steps, fresh_after};
ghost use Rattle.mu_model_record.specs.Changes.{next_record, sealed_entry, joined, blocks_in, sealed_or_not};
ghost use Rattle.mu_store.specs.Booted.{FillingHolds};
ghost use Rattle.mu_store.specs.View.{store_flash, store_record, store_fresh, StoreHolds, stopped_seen, ByFlash, StoreFaults};
ghost use Rattle.mu_store.specs.FillingView.{filling_flash, filling_record, filling_fresh, filling_bank, filling_size, filling_log, filling_flags, IsSameFilling};
ghost use Rattle.mu_store.specs.Sealed.{is_sealed, sealing_record, sealing_fresh, sealing_seen, SealingHolds, IsClosed, SealingFaults, HashedFaults, HasDigest};

use crate::base::Base;
use crate::digest::{bank_place, digest_of};
use crate::entries::with_entry;
use crate::faults::{Stopped, StoreFault};
use crate::filling::Filling;
use crate::laws::known;
use crate::store::Store;
use mu_cells::Ways;
use mu_image::Meta;
use mu_model_flash::laws::runs;
use mu_model_image::laws;
use mu_outside::Flash;
use mu_record::{BankState, Record, Tag};

/// What a bank that was to be sealed became: Sealed, or Empty where its octets don't fit the metadata.
#[derive(Drop)]
pub enum Sealing<F: Flash> {
    /// The bank is Sealed.
    Fit(Store<F>),
    /// The bank is Empty.
    Unfit(Store<F>),
}

// Each octet of a digest is below 256. It does nothing.
fn are_octets(digest: [u8; 32])
    ensures { AreOctets digest }
{
    let _digest = digest;
}

// Metadata of an image is in the ranges of its types. It does nothing.
pub(crate) fn is_meta(meta: Meta)
    requires { 0 < meta.size }
    ensures { IsMeta meta }
{
    are_octets(meta.digest);
}

// A store whose bank was hashed.
#[derive(Drop)]
struct Hashed<F: Flash> {
    filling: Filling<F>,
    fit: bool,
}

impl<F: Flash> Filling<F> {
    // Whether the octets of the bank have the size and the digest of the metadata. It begins no operation.
    fn hash(self, meta: &Meta) -> Result<Hashed<F>, Stopped<F>>
        ensures same { IfOk result (λ hashed. IsSameFilling self hashed.filling) }
        ensures fit { IsTrue (F.seen (filling_flash self)).told → IfOk result (λ hashed. IsTrue hashed.fit ↔ HasDigest (filling_record self) (filling_bank self) (filling_size self) meta.now (F.seen (filling_flash self)).octets) }
        ensures size { IfOk result (λ hashed. IsTrue hashed.fit → filling_size self ≡ meta.now.size) }
        ensures why { IfErr result (λ stopped. stopped.why ≡ StoreFault.Flash) }
        ensures reads { MatchResult result (λ hashed. Unchanged (F.seen (filling_flash self)) (F.seen (filling_flash hashed.filling))) (λ stopped. Unchanged (F.seen (filling_flash self)) (F.seen stopped.flash)) }
        ensures off { IfErr result (λ stopped. IsTrue (F.seen (filling_flash self)).only_armed → (F.seen stopped.flash).off ≡ true) }
        ensures cause { HashedFaults (F.seen (filling_flash self)) F.seen result }
    {
        if self.size != meta.size {
            return Ok(Hashed {
                filling: self,
                fit: false,
            });
        }
        let Filling {
            base,
            bank,
            size,
            log,
            held,
        } = self;
        let Base {
            mut flash,
            place,
            fields,
        } = base;
        match digest_of(&mut flash, bank_place(&fields, bank), size) {
            Ok(digest) => {
                let base = Base {
                    flash,
                    place,
                    fields,
                };
                let filling = Filling {
                    base,
                    bank,
                    size,
                    log,
                    held,
                };
                Ok(Hashed {
                    filling,
                    fit: digest == meta.digest,
                })
            }
            Err(_) => Err(Stopped {
                why: StoreFault::Flash,
                flash,
            }),
        }
    }

    // The bank becomes Sealed, in one record with this tag.
    fn close(self, meta: Meta, tag: &Tag) -> Result<Store<F>, Stopped<F>>
        requires same { meta.size ≡ filling_size self }
        requires not_last { (filling_record self).count < 2 ^ 32 - 1 }
        ensures meta { IsMeta meta }
        ensures fields { IfOk result (λ store. store_record store ≡ next_record (filling_record self) (slice_set (filling_record self).banks (filling_bank self) (sealed_entry meta)) tag.now) }
        ensures fresh { IfOk result (λ store. store_fresh store ≡ fresh_after (filling_fresh self) (store_record store)) }
        ensures why { IfErr result (λ stopped. stopped.why ≡ StoreFault.Flash) }
        ensures runs { (d e : StoreState) → FillingHolds F.seen self d → IsNext (F.seen (filling_flash self)).octets d e
            → e.present ≡ next_record (filling_record self) (slice_set (filling_record self).banks (filling_bank self) (sealed_entry meta)) tag.now
            → MatchResult result
            (λ store. Ran (either RepresentsStore) d (record_steps (filling_fresh self) d e) (F.seen (filling_flash self)) (F.seen (store_flash store)) × StoreHolds F.seen store e)
            (λ stopped. Broke (either RepresentsStore) d (record_steps (filling_fresh self) d e) (F.seen (filling_flash self)) (F.seen stopped.flash)) }
        ensures cause { StoreFaults (F.seen (filling_flash self)) F.seen result }
    {
        known();
        let Filling {
            base,
            bank,
            size: _,
            log: _,
            held: _,
        } = self;
        is_meta(meta);
        let fields = Record {
            count: base.fields.count + 1,
            pages: base.fields.pages,
            number: base.fields.number,
            banks: with_entry(&base.fields.banks, bank, BankState::Sealed(meta)),
            tag: *tag,
        };
        match base.write(fields) {
            Ok(base) => Ok(Store { base }),
            Err(stopped) => Err(stopped),
        }
    }

    /// Reads the bank, all of whose blocks are held, page by page and hashes it. Where its octets fit the metadata it becomes Sealed, in one record
    /// with the tag `fit`; else it becomes Empty, in one record with the tag `unfit`. `Worn` comes where the count stands at 4,294,967,295, before
    /// anything is read. Where the flash fails, no operation begins after the one that failed.
    pub fn seal(self, meta: &Meta, fit: &Tag, unfit: &Tag) -> Result<Sealing<F>, Stopped<F>>
        requires all { All IsTrue (filling_flags self) }
        ensures fields { IfOk result (IsClosed (filling_record self) (filling_bank self) meta.now fit.now unfit.now) }
        ensures fresh { IfOk result (λ sealing. sealing_fresh sealing ≡ fresh_after (filling_fresh self) (sealing_record sealing)) }
        ensures fit { (d : StoreState) → FillingHolds F.seen self d → IfOk result (λ sealing. is_sealed sealing ≡ is_fit (joined (blocks_in (content_of_bank d (filling_bank self)))) meta.now) }
        ensures size { IfOk result (λ sealing. IsTrue (is_sealed sealing) → filling_size self ≡ meta.now.size) }
        ensures octets { IsTrue (F.seen (filling_flash self)).told
            → IfOk result (λ sealing. is_sealed sealing ≡ is_fit (part_of (F.seen (filling_flash self)).octets (bank_place (filling_record self) (filling_bank self)) (filling_size self)) meta.now) }
        ensures worn { IsErrAnd result (λ stopped. stopped.why ≡ StoreFault.Worn) ↔ ((filling_record self).count ≡ 2 ^ 32 - 1) }
        ensures untouched { IfErr result (λ stopped. stopped.why ≡ StoreFault.Worn → stopped.flash ≡ filling_flash self) }
        ensures runs { (d : StoreState) → FillingHolds F.seen self d
            → Goes (either RepresentsStore) d (record_steps (filling_fresh self) d (sealed_or_not d (filling_bank self) meta.now fit.now unfit.now)) (F.seen (filling_flash self))
            (sealing_seen F.seen) (stopped_seen F.seen) (SealingHolds F.seen) ByFlash result }
        ensures cause { SealingFaults (F.seen (filling_flash self)) F.seen result }
    {
        known();
        runs::<Ways<F>>();
        if self.base.fields.count == u32::MAX {
            return Err(Stopped {
                why: StoreFault::Worn,
                flash: self.base.flash,
            });
        }
        laws::images();
        let Hashed {
            filling,
            fit: is_fit,
        } = match self.hash(meta) {
            Ok(hashed) => hashed,
            Err(stopped) => return Err(stopped),
        };
        if is_fit {
            match filling.close(*meta, fit) {
                Ok(store) => Ok(Sealing::Fit(store)),
                Err(stopped) => Err(stopped),
            }
        } else {
            match filling.give_up(unfit) {
                Ok(store) => Ok(Sealing::Unfit(store)),
                Err(stopped) => Err(stopped),
            }
        }
    }
}
