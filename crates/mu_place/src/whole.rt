// A bank that is filled whole, as a source gives its image.
ghost use Rattle.std.specs.Prelude.{◌≡◌, ◌<◌, ◌-◌, ◌^◌, ◌↔◌, IfOk, IfErr, IsErrAnd, None};
ghost use Rattle.mu_model_record.specs.declared.BankState.TheVariants.{Empty};
ghost use Rattle.mu_model_record.specs.Record.{entry_of};
ghost use Rattle.mu_store.specs.Filled.{SourceFaults};
ghost use Rattle.mu_place.specs.Place.{place_flash, place_fault, place_record, place_filling};
ghost use Rattle.mu_place.specs.Filled.{IsFilledWhole, FailsWhole, HasRisenWhole};

use crate::place::Place;
use mu_outside::{Flash, Source};
use mu_store::{FillFail, FillWhy, Tag};

impl<F: Flash> Place<F> {
    /// Fills a bank with all that a source gives, as the image of a version, and seals it: erases and programs its pages in rising order as the
    /// source gives them, and then writes one record with this tag. No fault is kept and no bank is being filled; the bank is below `banks()` and
    /// Empty. `Worn` comes where the count stands at 4,294,967,295, before the source is read.
    pub fn fill_whole<S: Source>(
        self,
        bank: u8,
        source: &mut S,
        version: u32,
        tag: &Tag,
    ) -> Result<Place<F>, FillFail<F>>
        requires fault { place_fault self ≡ None }
        requires rests { place_filling self ≡ None }
        requires there { bank < (place_record self).number }
        requires is_empty { entry_of (place_record self) bank ≡ Empty }
        ensures filled { IfOk result (IsFilledWhole F.seen self (record { bank = bank; version = version; tag = tag.now }) (S.left source.old) (S.left source.new)) }
        ensures fails { IfErr result (λ fail. FailsWhole F.seen self (record { bank = bank; version = version; tag = tag.now }) (S.left source.old) (S.left source.new) (F.seen fail.flash) fail.why) }
        ensures worn { IsErrAnd result (λ fail. fail.why ≡ FillWhy.Worn) ↔ ((place_record self).count ≡ 2 ^ 32 - 1) }
        ensures untouched { IfErr result (λ fail. fail.why ≡ FillWhy.Worn → (fail.flash ≡ place_flash self) × (source.new ≡ source.old)) }
        ensures cause { HasRisenWhole F.seen self result }
        ensures source { SourceFaults (S.faults source.old) (S.faults source.new) result }
    {
        match self {
            Place::Rest(store) => match store.fill_whole(bank, source, version, tag) {
                Ok(store) => Ok(Place::Rest(store)),
                Err(fail) => Err(fail),
            },
            Place::Fill(_) => unreachable!(),
            Place::Halted(_) => unreachable!(),
        }
    }
}
