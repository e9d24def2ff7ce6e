// What a distributor shows.
ghost use Rattle.std.specs.Prelude.{◌≡◌, ◌≤◌, None, length, map};
ghost use Rattle.std.specs.List.{count_by};
ghost use Rattle.mu_model_distributor.specs.DistState.{DistState, run_upload};
ghost use Rattle.mu_place.specs.Place.{place_held};
ghost use Rattle.mu_distributor_rows.specs.Looks.{meta_of, phase_of};
ghost use Rattle.mu_distributor_rows.specs.Receivers.{AreRowsOf};
ghost use Rattle.mu_distributor_memory.specs.Shows.{rows_in};
ghost use Rattle.mu_distributor_server.specs.Views.{memory_in, place_in, record_in, fault_in, flash_of, address_of};
ghost use Rattle.mu_distributor_server.specs.Shows.{Shows};

use crate::distributor::Distributor;
use mu_distributor_memory::{ReceiverRow, UploadPhase};
use mu_image::Meta;
use mu_model_distributor::DistPhase;
use mu_outside::Flash;
use mu_store::StoreFault;

impl<F: Flash> Distributor<F> {
    /// The fault that is kept.
    pub fn fault(&self) -> Option<StoreFault>
        ensures { result ≡ fault_in self.now }
    {
        self.server.fault()
    }

    /// The phase of the distribution.
    pub fn phase(&self) -> DistPhase
        ensures { (s : DistState) → Shows self.now s → result ≡ s.durable.phase }
    {
        self.memory.phase()
    }

    /// The phase of the upload in the run.
    pub fn upload_phase(&self) -> UploadPhase
        ensures { (s : DistState) → Shows self.now s → result ≡ phase_of (run_upload s) }
    {
        self.memory.upload_phase()
    }

    /// The receivers, with their progress in per cent.
    pub fn rows(&self) -> &[ReceiverRow]
        ensures few { length result.now ≤ 128 }
        ensures rows { (s : DistState) → Shows self.now s → AreRowsOf result.now s }
    {
        self.memory.rows()
    }

    /// The metadata of the images, in the order in which they were stored.
    pub fn images(&self) -> &[Meta]
        ensures few { length result.now ≤ 4 }
        ensures metas { (s : DistState) → Shows self.now s → result.now ≡ map meta_of s.durable.images }
    {
        self.memory.images()
    }

    /// How many distributions were started.
    pub fn counter(&self) -> u64
        ensures { (s : DistState) → Shows self.now s → result ≡ s.durable.counter }
    {
        self.memory.counter()
    }

    /// The count of the present record. No fault is kept.
    pub fn count(&self) -> u32
        requires { fault_in self.now ≡ None }
        ensures count { result ≡ (record_in self.now).count }
        ensures shows { (s : DistState) → Shows self.now s → result ≡ s.durable.count }
    {
        self.server.count()
    }

    /// How many blocks of the bank that is being filled are held; 0 where none is being filled. No fault is kept.
    pub fn held_count(&self) -> u16
        requires { fault_in self.now ≡ None }
        ensures { result ≡ count_by (λ held. held) (place_held (place_in self.now)) }
    {
        self.server.held_count()
    }

    /// Its unicast address.
    pub fn address(&self) -> u16
        ensures { result ≡ address_of self.now }
    {
        self.address
    }

    /// The flash that it owns.
    pub fn flash(&self) -> &F
        ensures { result.now ≡ flash_of self.now }
    {
        self.server.flash()
    }

    /// The flash that it owned.
    pub fn into_flash(self) -> F
        ensures { result ≡ flash_of self }
    {
        self.server.into_flash()
    }
}
