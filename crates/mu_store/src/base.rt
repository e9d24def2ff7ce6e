// What every typed state of a store keeps: its flash, the place of the present record, and its fields.
ghost use Rattle.std.specs.Prelude.{◌≡◌, ◌+◌, ◌-◌, ◌*◌, ◌<◌, ◌≤◌, ◌^◌, IfOk, IfErr, IsTrue, OnOk, MatchResult, length, slice_index};
ghost use Rattle.mu_model_record.specs.Record.{IsRecord};
ghost use Rattle.mu_model_record.specs.Store.{pages_of};
ghost use Rattle.mu_model_record.specs.Props.{record_prop};
ghost use Rattle.mu_record.specs.Place.{IsPlace};

use crate::faults::{Stopped, StoreFault};
use crate::laws::known;
use crate::pages::{PAGE, erase_pages, program_pages};
use mu_cells::{Ways, erase_page, write_mark};
use mu_model_flash::laws::runs;
use mu_outside::Flash;
use mu_record::{Place, Record, write_record};

#[derive(Drop)]
pub(crate) struct Base<F: Flash> {
    pub(crate) flash: F,
    pub(crate) place: Place,
    pub(crate) fields: Record,
    ghost is_place: { IsPlace (F.seen flash) place.page place.fresh },
    ghost pages: { (F.seen flash).pages ≡ pages_of fields },
    pub ghost in_range: { IsRecord fields } by { record_prop fields },
}

impl<F: Flash> Base<F> {
    ghost use Rattle.mu_model_flash.specs.Run.{Keeps};
    ghost use Rattle.mu_model_image.specs.Pieces.{piece_count};
    ghost use Rattle.mu_model_record.specs.Next.{fresh_after};
    ghost use Rattle.mu_store.specs.Base.{WritesRecord, ErasesMarks, AreBlankMarks, StaysPast, Faults, StaysOutsideOf, IsPut, PutsPages, SetsMark};

    // Writes this record next.
    pub(crate) fn write(self, fields: Record) -> Result<Base<F>, Stopped<F>>
        requires in_range { IsRecord fields }
        requires number { fields.number ≡ self.fields.number }
        requires pages { fields.pages ≡ self.fields.pages }
        ensures fields { IfOk result (λ base. base.fields ≡ fields) }
        ensures fresh { IfOk result (λ base. base.place.fresh ≡ fresh_after self.place.fresh fields) }
        ensures why { IfErr result (λ stopped. stopped.why ≡ StoreFault.Flash) }
        ensures keeps { IfOk result (λ base. Keeps (F.seen self.flash) (F.seen base.flash)) }
        ensures stays { StaysPast (F.seen self.flash) F.seen result }
        ensures runs { WritesRecord F.seen self fields result }
        ensures cause { Faults (F.seen self.flash) F.seen result }
    {
        let Base {
            mut flash,
            place,
            fields: _,
        } = self;
        match write_record(&mut flash, place, &fields) {
            Ok(place) => Ok(Base {
                flash,
                place,
                fields,
            }),
            Err(_) => Err(Stopped {
                why: StoreFault::Flash,
                flash,
            }),
        }
    }

    // Erases the mark page of a bank, where no bank is being filled: one operation.
    pub(crate) fn erase_marks(self, bank: u8) -> Result<Base<F>, Stopped<F>>
        requires there { bank < self.fields.number }
        ensures fields { IfOk result (λ base. base.fields ≡ self.fields) }
        ensures place { IfOk result (λ base. base.place ≡ self.place) }
        ensures why { IfErr result (λ stopped. stopped.why ≡ StoreFault.Flash) }
        ensures keeps { IfOk result (λ base. Keeps (F.seen self.flash) (F.seen base.flash)) }
        ensures blank { IfOk result (λ base. AreBlankMarks bank (F.seen base.flash)) }
        ensures runs { ErasesMarks F.seen self result }
        ensures cause { Faults (F.seen self.flash) F.seen result }
    {
        known();
        runs::<Ways<F>>();
        let Base {
            mut flash,
            place,
            fields,
        } = self;
        match erase_page(&mut flash, 2 + bank as u32) {
            Ok(()) => Ok(Base {
                flash,
                place,
                fields,
            }),
            Err(_) => Err(Stopped {
                why: StoreFault::Flash,
                flash,
            }),
        }
    }

    // Erases the pages of these octets and then programs them, in rising order.
    pub(crate) fn put(self, first: u32, octets: &[u8]) -> Result<Base<F>, Stopped<F>>
        requires past { 2 ≤ first }
        requires few { length octets.now ≤ 16384 }
        requires within { 4096 * first + 4096 * piece_count (length octets.now) 4096 ≤ 4096 * pages_of self.fields }
        ensures fields { IfOk result (λ base. base.fields ≡ self.fields) }
        ensures place { IfOk result (λ base. base.place ≡ self.place) }
        ensures why { IfErr result (λ stopped. stopped.why ≡ StoreFault.Flash) }
        ensures keeps { IfOk result (λ base. Keeps (F.seen self.flash) (F.seen base.flash)) }
        ensures stays { IfOk result (λ base. StaysOutsideOf (4096 * first) (4096 * piece_count (length octets.now) 4096) (F.seen self.flash) (F.seen base.flash)) }
        ensures put { IfOk result (λ base. IsPut (4096 * first) octets.now (F.seen self.flash) (F.seen base.flash)) }
        ensures runs { PutsPages F.seen self (4096 * first) (piece_count (length octets.now) 4096) result }
        ensures cause { Faults (F.seen self.flash) F.seen result }
    {
        known();
        runs::<Ways<F>>();
        let Base {
            mut flash,
            place,
            fields,
        } = self;
        let pages = (octets.len() as u32).div_ceil(PAGE);
        match erase_pages(&mut flash, first, pages) {
            Ok(()) => {}
            Err(_) => {
                return Err(Stopped {
                    why: StoreFault::Flash,
                    flash,
                });
            }
        }
        match program_pages(&mut flash, first, octets) {
            Ok(()) => Ok(Base {
                flash,
                place,
                fields,
            }),
            Err(_) => Err(Stopped {
                why: StoreFault::Flash,
                flash,
            }),
        }
    }

    // Sets a mark that is unset: one operation.
    pub(crate) fn set_mark(self, at: u32) -> Result<Base<F>, Stopped<F>>
        requires past { 8192 ≤ at }
        requires within { at < 4096 * pages_of self.fields }
        requires is_unset { IsTrue (F.seen self.flash).told → slice_index (F.seen self.flash).octets at ≡ 0xFF }
        ensures fields { IfOk result (λ base. base.fields ≡ self.fields) }
        ensures place { IfOk result (λ base. base.place ≡ self.place) }
        ensures why { IfErr result (λ stopped. stopped.why ≡ StoreFault.Flash) }
        ensures keeps { IfOk result (λ base. Keeps (F.seen self.flash) (F.seen base.flash)) }
        ensures runs { SetsMark F.seen self at result }
        ensures cause { Faults (F.seen self.flash) F.seen result }
    {
        known();
        let Base {
            mut flash,
            place,
            fields,
        } = self;
        match write_mark(&mut flash, at) {
            Ok(()) => Ok(Base {
                flash,
                place,
                fields,
            }),
            Err(_) => Err(Stopped {
                why: StoreFault::Flash,
                flash,
            }),
        }
    }
}
