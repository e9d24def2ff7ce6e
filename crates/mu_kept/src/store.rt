// A store that keeps a job.
ghost use Rattle.mu_kept.specs.Fits.{FitsJob, fits_prop};

use crate::judging::job_of;
use mu_note::BlobJob;
use mu_outside::Flash;
use mu_place::Place;
use mu_store::{BootFail, BootWhy, Booted, StoreFault};

/// What a BLOB Transfer Server keeps over a power cut: a store that is owned, and the job that the BLOB part of its tag says. A fault is kept, and
/// each call that can answer one answers it from then on; the way on from there is `into_flash` and a boot.
#[derive(Drop)]
pub struct JobStore<F: Flash> {
    pub(crate) place: Place<F>,
    pub(crate) job: Option<BlobJob>,
    ghost fits: { FitsJob place job } by { fits_prop place job },
}

/// What is expected for a job.
#[derive(Clone, Copy, Debug, PartialEq, Eq)]
pub struct Expect {
    /// The BLOB ID.
    pub id: u64,
    /// Octets that are expected, 1 to the capacity.
    pub size: u32,
    /// The Timeout Base.
    pub base: u16,
    /// The bank that they come into, below `banks()`.
    pub bank: u8,
}

impl<F: Flash> JobStore<F> {
    ghost use Rattle.std.specs.Prelude.{◌≡◌, IfOk, IfErr, None};
    ghost use Rattle.mu_model_record.specs.Store.{StoreState};
    ghost use Rattle.mu_model_represents.specs.BlobPart.{IsBlobRecord, IsNoBlobRecord};
    ghost use Rattle.mu_store.specs.Booted.{BootedHolds};
    ghost use Rattle.mu_place.specs.Place.{placed, place_flash, place_fault, place_record, PlaceHolds};
    ghost use Rattle.mu_kept.specs.Views.{place_in, part_in};

    /// The store that a boot found, with the job that its tag says. It makes no flash call. `Foreign` comes exactly where the tag's BLOB part is
    /// none that goes with the record.
    pub fn new(booted: Booted<F>) -> Result<JobStore<F>, BootFail<F>>
        ensures is { IfOk result (λ store. place_in store ≡ placed booted) }
        ensures fault { IfOk result (λ store. place_fault (place_in store) ≡ None) }
        ensures job { IfOk result (λ store. IsBlobRecord (place_record (placed booted)) (part_in store)) }
        ensures holds { (s : StoreState) → BootedHolds F.seen booted s → IfOk result (λ store. PlaceHolds F.seen (place_in store) s) }
        ensures foreign { IfErr result (λ fail. fail.why ≡ BootWhy.Foreign) }
        ensures flash { IfErr result (λ fail. fail.flash ≡ place_flash (placed booted)) }
        ensures none { IfErr result (λ fail. IsNoBlobRecord (place_record (placed booted))) }
    {
        let place = Place::new(booted);
        match job_of(&place) {
            Some(job) => Ok(JobStore { place, job }),
            None => Err(BootFail {
                why: BootWhy::Foreign,
                flash: place.into_flash(),
            }),
        }
    }

    /// The fault that is kept.
    pub fn fault(&self) -> Option<StoreFault>
        ensures { result ≡ place_fault (place_in self.now) }
    {
        self.place.fault()
    }

    /// The flash that it owns.
    pub fn flash(&self) -> &F
        ensures { result.now ≡ place_flash (place_in self.now) }
    {
        self.place.flash()
    }

    /// The flash that it owned.
    pub fn into_flash(self) -> F
        ensures { result ≡ place_flash (place_in self) }
    {
        self.place.into_flash()
    }
}
