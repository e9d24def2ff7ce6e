// Transfers that start and are given up.
ghost use Rattle.std.specs.Prelude.{◌≡◌, ◌≤◌, ℕ, IfOk, None};
ghost use Rattle.std.specs.Option.{option_map};
ghost use Rattle.mu_model_record.specs.Record.{capacity_of};
ghost use Rattle.mu_model_record.specs.Store.{StoreState};
ghost use Rattle.mu_model_node.specs.Slots.{Slots};
ghost use Rattle.mu_model_node.specs.Sound.{AreInRange};
ghost use Rattle.mu_model_node.specs.declared.Parameters.{Parameters as AnyParameters};
ghost use Rattle.mu_model_node.specs.BlobMessages.{TransferStart, TransferCancel};
ghost use Rattle.mu_model_node.specs.BlobServer.{Same, Begins, Drops, unlinked};
ghost use Rattle.mu_model_node.specs.BlobTable.{on_blob};
ghost use Rattle.mu_blob_rows.specs.Rows.{ChangeFits, told_by};
ghost use Rattle.mu_blob_rows.specs.Sessions.{link_by};
ghost use Rattle.mu_blob_rows.specs.declared.table.TransferChange.TheVariants.{Nothing, Begin, Drop};
ghost use Rattle.mu_place.specs.Place.{place_record, PlaceHolds};
ghost use Rattle.mu_place.specs.Calls.{Answers, WornAtLast, WornUntouched, HasRisen, PlaceGoes};
ghost use Rattle.mu_kept.specs.Views.{serving_in};
ghost use Rattle.mu_kept.specs.Shows.{Shows};
ghost use Rattle.mu_blobsrv.specs.Views.{store_of, place_of, fault_of, session_of, server_of};
ghost use Rattle.mu_blobsrv.specs.Replies.{replies_of};
ghost use Rattle.mu_blobsrv.specs.Rows.{IsRow, quietly};
ghost use Rattle.mu_blobsrv.specs.Runs.{change_steps, FaultBy, PutsOneBlock, Stays};

use crate::answering::link_told;
use crate::server::BlobServer;
use mu_blob_answers::BlobAnswer;
use mu_blob_rows::{Told, TransferChange};
use mu_model_node::Parameters;
use mu_outside::Flash;
use mu_store::StoreFault;

impl<F: Flash> BlobServer<F> {
    // Tells the phase after a row that changes nothing of what is kept.
    pub(crate) fn tell(&mut self, told: Told, from: u16, now: u64) -> Option<(u16, BlobAnswer)>
        requires fault { fault_of self.old ≡ None }
        requires known { told.status ≤ 7 }
        requires nothing { told.change ≡ Nothing }
        ensures store { store_of self.new ≡ store_of self.old }
        ensures row { (held : Slots) (p : AnyParameters) → Shows (store_of self.old) held → told_by (server_of self.old held now) from p told ≡ quietly self.new (replies_of result) }
    {
        self.store.known();
        let kept = self.store.kept();
        let missing = self.store.blocks_missing();
        let answer = link_told(&mut self.session, told, kept, missing, from, now);
        Some((from, answer))
    }

    // A transfer of the job is begun.
    fn begin(
        &mut self,
        told: Told,
        parameters: Parameters,
        from: u16,
        now: u64,
    ) -> Result<Option<(u16, BlobAnswer)>, StoreFault>
        requires fault { fault_of self.old ≡ None }
        requires known { told.status ≤ 7 }
        requires begins { told.change ≡ Begin }
        requires ranges { AreInRange parameters }
        requires fits { ChangeFits (serving_in (store_of self.old)) (capacity_of (place_record (place_of self.old))) parameters Begin }
        ensures answers { Answers (place_of self.new) result }
        ensures row { (held : Slots) → Shows (store_of self.old) held → IfOk result (λ reply. IsRow (store_of self.old) held (told_by (server_of self.old held now) from parameters told) self.new (replies_of reply)) }
        ensures stays { IfOk result (λ _. Stays (store_of self.old) (store_of self.new)) }
        ensures worn { WornAtLast (place_of self.old) result }
        ensures untouched { WornUntouched (place_of self.old) (place_of self.new) result }
        ensures cause { HasRisen F.seen (place_of self.old) (place_of self.new) result }
        ensures runs { (s : StoreState) → PlaceHolds F.seen (place_of self.old) s
            → PlaceGoes F.seen s (change_steps (store_of self.old) s (Begins parameters)) (place_of self.old) (place_of self.new) result }
    {
        self.store.begin(parameters)?;
        let kept = self.store.kept();
        let missing = self.store.blocks_missing();
        let answer = link_told(&mut self.session, told, kept, missing, from, now);
        Ok(Some((from, answer)))
    }

    // A transfer of the job is given up.
    fn give_up(
        &mut self,
        told: Told,
        from: u16,
        now: u64,
    ) -> Result<Option<(u16, BlobAnswer)>, StoreFault>
        requires fault { fault_of self.old ≡ None }
        requires known { told.status ≤ 7 }
        requires drops { told.change ≡ Drop }
        requires unlinks { link_by told.link now from (session_of self.old) ≡ unlinked (session_of self.old) }
        requires fits { (p : AnyParameters) → ChangeFits (serving_in (store_of self.old)) (capacity_of (place_record (place_of self.old))) p Drop }
        ensures answers { Answers (place_of self.new) result }
        ensures row { (held : Slots) (p : AnyParameters) → Shows (store_of self.old) held → IfOk result (λ reply. IsRow (store_of self.old) held (told_by (server_of self.old held now) from p told) self.new (replies_of reply)) }
        ensures stays { IfOk result (λ _. Stays (store_of self.old) (store_of self.new)) }
        ensures worn { WornAtLast (place_of self.old) result }
        ensures untouched { WornUntouched (place_of self.old) (place_of self.new) result }
        ensures cause { HasRisen F.seen (place_of self.old) (place_of self.new) result }
        ensures runs { (s : StoreState) → PlaceHolds F.seen (place_of self.old) s
            → PlaceGoes F.seen s (change_steps (store_of self.old) s Drops) (place_of self.old) (place_of self.new) result }
    {
        self.store.drop_transfer()?;
        let kept = self.store.kept();
        let missing = self.store.blocks_missing();
        let answer = link_told(&mut self.session, told, kept, missing, from, now);
        Ok(Some((from, answer)))
    }

    // BLOB Transfer Start.
    pub(crate) fn transfer_start(
        &mut self,
        id: u64,
        parameters: Parameters,
        from: u16,
        now: u64,
    ) -> Result<Option<(u16, BlobAnswer)>, StoreFault>
        requires fault { fault_of self.old ≡ None }
        requires ranges { AreInRange parameters }
        ensures answers { Answers (place_of self.new) result }
        ensures row { (held : Slots) → Shows (store_of self.old) held → IfOk result (λ reply. IsRow (store_of self.old) held (on_blob (server_of self.old held now) from (TransferStart id parameters)) self.new (replies_of reply)) }
        ensures faults { (held : Slots) → Shows (store_of self.old) held → FaultBy (on_blob (server_of self.old held now) from (TransferStart id parameters)).change (place_of self.old) result }
        ensures stays { IfOk result (λ _. Stays (store_of self.old) (store_of self.new)) }
        ensures still { (held : Slots) → (on_blob (server_of self.old held now) from (TransferStart id parameters)).change ≡ Same → store_of self.new ≡ store_of self.old }
        ensures one { (held : Slots) → PutsOneBlock (on_blob (server_of self.old held now) from (TransferStart id parameters)).change }
        ensures untouched { WornUntouched (place_of self.old) (place_of self.new) result }
        ensures cause { HasRisen F.seen (place_of self.old) (place_of self.new) result }
        ensures runs { (s : StoreState) (held : Slots) → PlaceHolds F.seen (place_of self.old) s → Shows (store_of self.old) held
            → PlaceGoes F.seen s (change_steps (store_of self.old) s (on_blob (server_of self.old held now) from (TransferStart id parameters)).change) (place_of self.old) (place_of self.new) result }
    {
        self.store.known();
        let told = self
            .session
            .look(self.store.kept(), now)
            .transfer_start(id, parameters);
        match told.change {
            TransferChange::Nothing => Ok(self.tell(told, from, now)),
            TransferChange::Begin => self.begin(told, parameters, from, now),
            TransferChange::Drop => unreachable!(),
        }
    }

    // BLOB Transfer Cancel.
    pub(crate) fn transfer_cancel(
        &mut self,
        id: u64,
        from: u16,
        now: u64,
    ) -> Result<Option<(u16, BlobAnswer)>, StoreFault>
        requires fault { fault_of self.old ≡ None }
        ensures answers { Answers (place_of self.new) result }
        ensures row { (held : Slots) → Shows (store_of self.old) held → IfOk result (λ reply. IsRow (store_of self.old) held (on_blob (server_of self.old held now) from (TransferCancel id)) self.new (replies_of reply)) }
        ensures faults { (held : Slots) → Shows (store_of self.old) held → FaultBy (on_blob (server_of self.old held now) from (TransferCancel id)).change (place_of self.old) result }
        ensures stays { IfOk result (λ _. Stays (store_of self.old) (store_of self.new)) }
        ensures still { (held : Slots) → (on_blob (server_of self.old held now) from (TransferCancel id)).change ≡ Same → store_of self.new ≡ store_of self.old }
        ensures one { (held : Slots) → PutsOneBlock (on_blob (server_of self.old held now) from (TransferCancel id)).change }
        ensures untouched { WornUntouched (place_of self.old) (place_of self.new) result }
        ensures cause { HasRisen F.seen (place_of self.old) (place_of self.new) result }
        ensures runs { (s : StoreState) (held : Slots) → PlaceHolds F.seen (place_of self.old) s → Shows (store_of self.old) held
            → PlaceGoes F.seen s (change_steps (store_of self.old) s (on_blob (server_of self.old held now) from (TransferCancel id)).change) (place_of self.old) (place_of self.new) result }
    {
        self.store.known();
        let told = self
            .session
            .look(self.store.kept(), now)
            .transfer_cancel(id);
        match told.change {
            TransferChange::Nothing => Ok(self.tell(told, from, now)),
            TransferChange::Begin => unreachable!(),
            TransferChange::Drop => self.give_up(told, from, now),
        }
    }
}
