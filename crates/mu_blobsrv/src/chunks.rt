// Chunks that come, and the block that they complete.
ghost use Rattle.std.specs.Prelude.{◌≡◌, ◌≤◌, ℕ, length, IfOk, IfErr, None, Some, true};
ghost use Rattle.mu_model_record.specs.Store.{StoreState};
ghost use Rattle.mu_model_node.specs.Slots.{Slots, joined};
ghost use Rattle.mu_model_node.specs.BlobMessages.{ChunkTransfer};
ghost use Rattle.mu_model_node.specs.BlobServer.{Same, Puts};
ghost use Rattle.mu_model_node.specs.BlobTable.{on_blob, completes};
ghost use Rattle.mu_block.specs.Coming.{Coming, is_whole};
ghost use Rattle.mu_place.specs.Place.{PlaceHolds};
ghost use Rattle.mu_place.specs.Calls.{Answers, WornUntouched, HasRisen, PlaceGoes};
ghost use Rattle.mu_kept.specs.Shows.{Shows};
ghost use Rattle.mu_blobsrv.specs.Views.{store_of, place_of, fault_of, session_of, coming_of, server_of};
ghost use Rattle.mu_blobsrv.specs.Replies.{replies_of};
ghost use Rattle.mu_blobsrv.specs.Rows.{IsRow};
ghost use Rattle.mu_blobsrv.specs.Runs.{change_steps, FaultBy, PutsOneBlock, Stays};

use crate::answering::completed;
use crate::server::BlobServer;
use mu_blob_answers::BlobAnswer;
use mu_blob_session::Came;
use mu_model_node::Parameters;
use mu_outside::Flash;
use mu_store::StoreFault;

impl<F: Flash> BlobServer<F> {
    // The block that came is whole: it is put.
    fn put(&mut self, parameters: Parameters) -> Result<Option<(u16, BlobAnswer)>, StoreFault>
        requires fault { fault_of self.old ≡ None }
        requires whole { is_whole (coming_of self.old) ≡ true }
        ensures answers { Answers (place_of self.new) result }
        ensures row { (c : Coming) (held : Slots) → coming_of self.old ≡ Some c → Shows (store_of self.old) held
            → IfOk result (λ reply. IsRow (store_of self.old) held (completes (session_of self.old) parameters c.block c.block.chunks) self.new (replies_of reply)) }
        ensures stays { IfOk result (λ _. Stays (store_of self.old) (store_of self.new)) }
        ensures why { IfErr result (λ why. why ≡ StoreFault.Flash) }
        ensures one { (c : Coming) → coming_of self.old ≡ Some c → length (joined c.block.chunks) ≤ 16384 }
        ensures cause { HasRisen F.seen (place_of self.old) (place_of self.new) result }
        ensures runs { (c : Coming) (s : StoreState) → coming_of self.old ≡ Some c → PlaceHolds F.seen (place_of self.old) s
            → PlaceGoes F.seen s (change_steps (store_of self.old) s (Puts c.block.number (joined c.block.chunks))) (place_of self.old) (place_of self.new) result }
    {
        self.session.known();
        let (Some(number), Some(octets)) = (
            self.session.block_number(),
            self.session.block_octets(),
        ) else {
            unreachable!()
        };
        self.store.put_block(number, octets)?;
        let client = self.session.complete(parameters);
        Ok(completed(client))
    }

    // BLOB Chunk Transfer.
    pub(crate) fn chunk(
        &mut self,
        chunk: u16,
        octets: &[u8],
        now: u64,
    ) -> Result<Option<(u16, BlobAnswer)>, StoreFault>
        requires fault { fault_of self.old ≡ None }
        ensures answers { Answers (place_of self.new) result }
        ensures row { (held : Slots) (from : ℕ) → Shows (store_of self.old) held
            → IfOk result (λ reply. IsRow (store_of self.old) held (on_blob (server_of self.old held now) from (ChunkTransfer chunk octets.now)) self.new (replies_of reply)) }
        ensures faults { (held : Slots) (from : ℕ) → Shows (store_of self.old) held → FaultBy (on_blob (server_of self.old held now) from (ChunkTransfer chunk octets.now)).change (place_of self.old) result }
        ensures stays { IfOk result (λ _. Stays (store_of self.old) (store_of self.new)) }
        ensures still { (held : Slots) (from : ℕ) → (on_blob (server_of self.old held now) from (ChunkTransfer chunk octets.now)).change ≡ Same → store_of self.new ≡ store_of self.old }
        ensures one { (held : Slots) (from : ℕ) → PutsOneBlock (on_blob (server_of self.old held now) from (ChunkTransfer chunk octets.now)).change }
        ensures untouched { WornUntouched (place_of self.old) (place_of self.new) result }
        ensures cause { HasRisen F.seen (place_of self.old) (place_of self.new) result }
        ensures runs { (s : StoreState) (held : Slots) (from : ℕ) → PlaceHolds F.seen (place_of self.old) s → Shows (store_of self.old) held
            → PlaceGoes F.seen s (change_steps (store_of self.old) s (on_blob (server_of self.old held now) from (ChunkTransfer chunk octets.now)).change) (place_of self.old) (place_of self.new) result }
    {
        self.store.known();
        let kept = self.store.kept();
        match self.session.chunk(kept, chunk, octets, now) {
            Came::InPart => Ok(None),
            Came::Whole(parameters) => self.put(parameters),
        }
    }
}
