// A distributor: its BLOB server, and what it has in memory.
ghost use Rattle.std.specs.Prelude.{◌≡◌, None, false, is_some};
ghost use Rattle.mu_kept.specs.Views.{job_in};
ghost use Rattle.mu_place.specs.Place.{place_record};
ghost use Rattle.mu_blobsrv.specs.Views.{store_of, place_of, fault_of};
ghost use Rattle.mu_distributor_rows.specs.Decided.{is_in_part};
ghost use Rattle.mu_distributor_memory.specs.Shows.{upload_in};

use mu_blobsrv::BlobServer;
use mu_distributor_memory::Memory;
use mu_outside::Flash;

/// A distributor over a flash that it owns. A fault is kept: each call that can answer one answers it from then on, and the way on from there is
/// `into_flash` and a boot. The value is about 22 KB.
#[derive(Drop)]
pub struct Distributor<F: Flash> {
    pub(crate) server: BlobServer<F>,
    pub(crate) memory: Memory,
    pub(crate) address: u16,
    pub(crate) moment: u64,
    ghost four_banks: { fault_of server ≡ None → (place_record (place_of server)).number ≡ 4 },
    ghost rests: { fault_of server ≡ None → is_in_part (upload_in memory) ≡ false → is_some (job_in (store_of server)) ≡ false },
}
