// A server: what it keeps, and its session.
ghost use Rattle.mu_blobsrv.specs.Suits.{IsSuited, suited_prop};

use mu_blob_session::BlobSession;
use mu_kept::JobStore;
use mu_outside::Flash;
use mu_store::{BootFail, Booted};

/// A BLOB Transfer Server over a store. A fault is kept: each call that can answer one answers it from then on, and the way on from there is
/// `into_flash` and a boot. The value is about 20 KB.
#[derive(Drop)]
pub struct BlobServer<F: Flash> {
    pub(crate) store: JobStore<F>,
    pub(crate) session: BlobSession,
    ghost suits: { IsSuited store session } by { suited_prop store session },
}

impl<F: Flash> BlobServer<F> {
    ghost use Rattle.std.specs.Prelude.{◌≡◌, IfOk, IfErr, None};
    ghost use Rattle.mu_model_node.specs.BlobServer.{asleep};
    ghost use Rattle.mu_model_record.specs.Store.{StoreState};
    ghost use Rattle.mu_model_represents.specs.BlobPart.{IsBlobRecord, IsNoBlobRecord};
    ghost use Rattle.mu_store.specs.Booted.{BootedHolds};
    ghost use Rattle.mu_store.specs.declared.booting.BootWhy.TheVariants.{Foreign};
    ghost use Rattle.mu_place.specs.Place.{placed, place_flash, place_record, PlaceHolds};
    ghost use Rattle.mu_kept.specs.Views.{part_in};
    ghost use Rattle.mu_blobsrv.specs.Views.{store_of, place_of, fault_of, session_of};

    /// The server of a store that a boot found: its job is the one that the tag says, and its link is Cut. It makes no flash call, and keeps no
    /// fault. `Foreign` comes exactly where the tag's BLOB part is none that goes with the record.
    pub fn from_boot(booted: Booted<F>) -> Result<BlobServer<F>, BootFail<F>>
        ensures is { IfOk result (λ server. place_of server ≡ placed booted) }
        ensures fault { IfOk result (λ server. fault_of server ≡ None) }
        ensures session { IfOk result (λ server. session_of server ≡ asleep) }
        ensures job { IfOk result (λ server. IsBlobRecord (place_record (placed booted)) (part_in (store_of server))) }
        ensures holds { (s : StoreState) → BootedHolds F.seen booted s → IfOk result (λ server. PlaceHolds F.seen (place_of server) s) }
        ensures foreign { IfErr result (λ fail. fail.why ≡ Foreign) }
        ensures flash { IfErr result (λ fail. fail.flash ≡ place_flash (placed booted)) }
        ensures none { IfErr result (λ fail. IsNoBlobRecord (place_record (placed booted))) }
    {
        match JobStore::new(booted) {
            Ok(store) => Ok(BlobServer {
                store,
                session: BlobSession::asleep(),
            }),
            Err(fail) => Err(fail),
        }
    }

    /// The flash that it owns.
    pub fn flash(&self) -> &F
        ensures { result.now ≡ place_flash (place_of self.now) }
    {
        self.store.flash()
    }

    /// The flash that it owned.
    pub fn into_flash(self) -> F
        ensures { result ≡ place_flash (place_of self) }
    {
        self.store.into_flash()
    }
}
