// A bank that is filled whole, as a source gives its image.
ghost use Rattle.std.specs.Prelude.{◌≡◌, ℕ, ◌+◌, ◌-◌, ◌*◌, ◌<◌, ◌≤◌, ◌^◌, ◌↔◌, IfOk, IfErr, IsErrAnd, IsTrue, MatchResult};
ghost use Rattle.mu_model_record.specs.Record.{entry_of};
ghost use Rattle.mu_model_record.specs.declared.BankState.TheVariants.{Empty};
ghost use Rattle.mu_model_record.specs.Store.{pages_of};
ghost use Rattle.mu_model_record.specs.Next.{fresh_after};
ghost use Rattle.mu_store.specs.View.{store_flash, store_record, store_fresh};
ghost use Rattle.mu_store.specs.Puts.{TakesPiece, StopsAt, TakesAll, StopsBefore, FailOf};
ghost use Rattle.mu_store.specs.Filled.{IsFilled, FailsBy, FilledFaults, SourceFaults};

use crate::base::Base;
use crate::digest::bank_place;
use crate::entries::with_entry;
use crate::laws::known;
use crate::pages::PAGE;
use crate::sealing::is_meta;
use crate::source::{has_more, read_piece};
use crate::store::Store;
use mu_cells::Ways;
use mu_image::{Digesting, Meta};
use mu_model_flash::laws::runs;
use mu_outside::{Flash, Source};
use mu_record::{BankState, Record, Tag};

/// Why a bank wasn't filled: a call of the flash failed, the count stands at 4,294,967,295, a read of the source failed, or the source gave
/// nothing, or more than the bank has.
#[derive(Clone, Copy, Debug, PartialEq, Eq)]
pub enum FillWhy {
    Flash,
    Worn,
    Read,
    Empty,
    TooBig,
}

/// A bank that wasn't filled, with the flash. The way on is `boot`.
#[derive(Drop)]
pub struct FillFail<F> {
    pub why: FillWhy,
    pub flash: F,
}

fn fail<F>(why: FillWhy, flash: F) -> FillFail<F>
    ensures why { result.why ≡ why }
    ensures flash { result.flash ≡ flash }
{
    FillFail { why, flash }
}

// A bank that is being filled: the octets so far.
#[derive(Drop)]
struct Part<F: Flash> {
    base: Base<F>,
    size: u32,
    digesting: Digesting,
}

impl<F: Flash> Part<F> {
    // Reads a page of the source, and puts what it gave.
    fn next<S: Source>(self, page: u32, source: &mut S) -> Result<Part<F>, FillFail<F>>
        requires past { 2 ≤ page }
        requires within { page < pages_of self.base.fields }
        requires small { self.size ≤ 2 ^ 20 }
        ensures piece { IfOk result (TakesPiece F.seen (4096 * page) (S.left source.old) (S.left source.new) self) }
        ensures stops { IfErr result (λ fail. StopsAt F.seen (4096 * page) (S.left source.old) (S.left source.new) self.base fail fail.why) }
        ensures cause { MatchResult result (λ part. (F.seen self.base.flash).faults ≤ (F.seen part.base.flash).faults) (FailOf (F.seen self.base.flash) F.seen) }
        ensures source { SourceFaults (S.faults source.old) (S.faults source.new) result }
    {
        known();
        runs::<Ways<F>>();
        let Part {
            base,
            size,
            mut digesting,
        } = self;
        let mut piece = [0; PAGE as usize];
        let count = match read_piece(source, &mut piece) {
            Ok(count) => count,
            Err(_) => return Err(fail(FillWhy::Read, base.flash)),
        };
        if count == 0 {
            return Ok(Part {
                base,
                size,
                digesting,
            });
        }
        digesting.take(&piece[..count]);
        match base.put(page, &piece[..count]) {
            Ok(base) => Ok(Part {
                base,
                size: size + count as u32,
                digesting,
            }),
            Err(stopped) => Err(fail(FillWhy::Flash, stopped.flash)),
        }
    }
}

// Puts what a source gives into a bank, page by page, to its end.
fn put_all<F: Flash, S: Source>(
    base: Base<F>,
    bank: u8,
    source: &mut S,
) -> Result<Part<F>, FillFail<F>>
    requires there { bank < base.fields.number }
    ensures all { IfOk result (TakesAll F.seen bank (S.left source.old) (S.left source.new) base) }
    ensures stops { IfErr result (λ fail. StopsBefore F.seen bank (S.left source.old) (S.left source.new) base fail fail.why) }
    ensures cause { MatchResult result (λ part. (F.seen base.flash).faults ≤ (F.seen part.base.flash).faults) (FailOf (F.seen base.flash) F.seen) }
    ensures source { SourceFaults (S.faults source.old) (S.faults source.new) result }
{
    known();
    runs::<Ways<F>>();
    let first = bank_place(&base.fields, bank) / PAGE;
    let pages = base.fields.pages as u32;
    let mut part = Part {
        base,
        size: 0,
        digesting: Digesting::new(),
    };
    for page in 0..pages {
        part = match part.next(first + page, source) {
            Ok(next) => next,
            Err(fail) => return Err(fail),
        };
        if part.size < PAGE * (page + 1) {
            return Ok(part);
        }
    }
    match has_more(source) {
        Ok(false) => Ok(part),
        Ok(true) => Err(fail(FillWhy::TooBig, part.base.flash)),
        Err(_) => Err(fail(FillWhy::Read, part.base.flash)),
    }
}

impl<F: Flash> Store<F> {
    /// Fills a bank with all that a source gives, as the image of a version, and seals it: erases and programs its pages in rising order as the
    /// source gives them, and then writes one record with this tag. The bank is below `banks()` and Empty. `Worn` comes where the count stands at
    /// 4,294,967,295, before the source is read.
    pub fn fill_whole<S: Source>(
        self,
        bank: u8,
        source: &mut S,
        version: u32,
        tag: &Tag,
    ) -> Result<Store<F>, FillFail<F>>
        requires there { bank < (store_record self).number }
        requires is_empty { entry_of (store_record self) bank ≡ Empty }
        ensures filled { IfOk result (IsFilled F.seen self (record { bank = bank; version = version; tag = tag.now }) (S.left source.old) (S.left source.new)) }
        ensures fresh { IfOk result (λ store. store_fresh store ≡ fresh_after (store_fresh self) (store_record store)) }
        ensures fails { IfErr result (λ fail. FailsBy F.seen self (record { bank = bank; version = version; tag = tag.now }) (S.left source.old) (S.left source.new) (F.seen fail.flash) fail.why) }
        ensures worn { IsErrAnd result (λ fail. fail.why ≡ FillWhy.Worn) ↔ ((store_record self).count ≡ 2 ^ 32 - 1) }
        ensures untouched { IfErr result (λ fail. fail.why ≡ FillWhy.Worn → (fail.flash ≡ store_flash self) × (source.new ≡ source.old)) }
        ensures cause { FilledFaults (F.seen (store_flash self)) F.seen result }
        ensures source { SourceFaults (S.faults source.old) (S.faults source.new) result }
    {
        known();
        runs::<Ways<F>>();
        let Store { base } = self;
        if base.fields.count == u32::MAX {
            return Err(fail(FillWhy::Worn, base.flash));
        }
        let Part {
            base,
            size,
            digesting,
        } = match put_all(base, bank, source) {
            Ok(part) => part,
            Err(fail) => return Err(fail),
        };
        if size == 0 {
            return Err(fail(FillWhy::Empty, base.flash));
        }
        let meta = Meta {
            size,
            version,
            digest: digesting.done(),
        };
        is_meta(meta);
        let fields = Record {
            count: base.fields.count + 1,
            pages: base.fields.pages,
            number: base.fields.number,
            banks: with_entry(&base.fields.banks, bank, BankState::Sealed(meta)),
            tag: *tag,
        };
        match base.write(fields) {
            Ok(base) => Ok(Store { base }),
            Err(stopped) => Err(fail(FillWhy::Flash, stopped.flash)),
        }
    }
}
