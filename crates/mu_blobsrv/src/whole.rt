// A bank that is filled whole, as a source gives its image.
ghost use Rattle.std.specs.Prelude.{◌≡◌, ◌<◌, ◌-◌, ◌^◌, ◌↔◌, IfOk, IfErr, IsErrAnd, None};
ghost use Rattle.mu_model_record.specs.declared.BankState.TheVariants.{Empty};
ghost use Rattle.mu_model_record.specs.Record.{entry_of};
ghost use Rattle.mu_store.specs.Filled.{SourceFaults};
ghost use Rattle.mu_place.specs.Place.{place_flash, place_record};
ghost use Rattle.mu_place.specs.Filled.{IsFilledWhole, FailsWhole};
ghost use Rattle.mu_kept.specs.Views.{job_in};
ghost use Rattle.mu_kept.specs.Calls.{note_in};
ghost use Rattle.mu_kept.specs.Tags.{tag_with};
ghost use Rattle.mu_blobsrv.specs.Views.{store_of, place_of, fault_of, session_of};
ghost use Rattle.mu_blobsrv.specs.Whole.{HasRisenIn};

use crate::server::BlobServer;
use mu_kept::Note;
use mu_outside::{Flash, Source};
use mu_store::{FillFail, FillWhy};

impl<F: Flash> BlobServer<F> {
    /// Fills a bank with all that a source gives, as the image of a version, and seals it, in one record with this note, all else as it was. No fault is
    /// kept and there is no job; the bank is below `banks()` and Empty. `Worn` comes where the count stands at 4,294,967,295, before the source is read.
    pub fn fill_whole<S: Source>(
        self,
        bank: u8,
        source: &mut S,
        version: u32,
        note: &Note,
    ) -> Result<BlobServer<F>, FillFail<F>>
        requires fault { fault_of self ≡ None }
        requires no_job { job_in (store_of self) ≡ None }
        requires there { bank < (place_record (place_of self)).number }
        requires is_empty { entry_of (place_record (place_of self)) bank ≡ Empty }
        ensures filled { IfOk result (λ new. IsFilledWhole F.seen (place_of self) (record { bank = bank; version = version; tag = tag_with None note.now }) (S.left source.old) (S.left source.new) (place_of new)) }
        ensures job { IfOk result (λ new. job_in (store_of new) ≡ None) }
        ensures session { IfOk result (λ new. session_of new ≡ session_of self) }
        ensures note { IfOk result (λ new. note_in (store_of new) ≡ note.now) }
        ensures fails { IfErr result (λ fail. FailsWhole F.seen (place_of self) (record { bank = bank; version = version; tag = tag_with None note.now }) (S.left source.old) (S.left source.new) (F.seen fail.flash) fail.why) }
        ensures worn { IsErrAnd result (λ fail. fail.why ≡ FillWhy.Worn) ↔ ((place_record (place_of self)).count ≡ 2 ^ 32 - 1) }
        ensures untouched { IfErr result (λ fail. fail.why ≡ FillWhy.Worn → (fail.flash ≡ place_flash (place_of self)) × (source.new ≡ source.old)) }
        ensures cause { HasRisenIn F.seen self result }
        ensures source { SourceFaults (S.faults source.old) (S.faults source.new) result }
    {
        let session = self.session;
        match self.store.fill_whole(bank, source, version, note) {
            Ok(store) => Ok(BlobServer { store, session }),
            Err(fail) => Err(fail),
        }
    }
}
