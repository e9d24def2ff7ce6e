// Messages, and time that passes.
ghost use Rattle.std.specs.Prelude.{◌≡◌, ◌≤◌, ◌+◌, [], ℕ, length, IfOk, IfErr, None, map};
ghost use Rattle.mu_model_wire.specs.Spelling.{Fits};
ghost use Rattle.mu_model_wire.specs.Blob.{blob_rows};
ghost use Rattle.mu_codec.specs.View.{packet_of};
ghost use Rattle.mu_blobmsg.specs.View.{view};
ghost use Rattle.mu_model_record.specs.Store.{StoreState};
ghost use Rattle.mu_model_node.specs.Slots.{Slots};
ghost use Rattle.mu_model_node.specs.Sound.{BlobRequestFits};
ghost use Rattle.mu_model_node.specs.BlobMessages.{blob_request_of as request_in, BlobInformationGet, TransferGet, BlockStart, BlockGet};
ghost use Rattle.mu_model_node.specs.BlobServer.{Same};
ghost use Rattle.mu_model_node.specs.BlobTable.{on_blob, on_server_time};
ghost use Rattle.mu_place.specs.Place.{PlaceHolds};
ghost use Rattle.mu_place.specs.Calls.{Answers, WornUntouched, HasRisen, PlaceGoes};
ghost use Rattle.mu_kept.specs.Shows.{Shows};
ghost use Rattle.mu_blob_answers.specs.Messages.{blob_request_of};
ghost use Rattle.mu_blobsrv.specs.Views.{store_of, place_of, fault_of, session_of, server_of};
ghost use Rattle.mu_blobsrv.specs.Replies.{replies_of, packets_of};
ghost use Rattle.mu_blobsrv.specs.Rows.{served_by, IsRow, IsServed, quietly};
ghost use Rattle.mu_blobsrv.specs.Runs.{change_steps, pages_put, FaultBy, PutsOneBlock, Stays, KeepsServer};

use crate::answering::{asked, block_got, block_started, transfer_told};
use crate::sending::reply;
use crate::server::BlobServer;
use mu_blob_answers::{BlobAnswer, BlobRequest, information_reply, request_of};
use mu_blobmsg::BlobMsg;
use mu_codec::Outbox;
use mu_outside::Flash;
use mu_store::StoreFault;

impl<F: Flash> BlobServer<F> {
    // BLOB Information Get.
    fn information(&self, from: u16) -> Option<(u16, BlobAnswer)>
        requires fault { fault_of self.now ≡ None }
        ensures row { (held : Slots) (now : ℕ) → on_blob (server_of self.now held now) from BlobInformationGet ≡ quietly self.now (replies_of result) }
    {
        Some((from, information_reply(self.store.capacity())))
    }

    // BLOB Transfer Get.
    fn transfer_get(&self, from: u16) -> Option<(u16, BlobAnswer)>
        requires fault { fault_of self.now ≡ None }
        ensures row { (held : Slots) (now : ℕ) → Shows (store_of self.now) held → on_blob (server_of self.now held now) from TransferGet ≡ quietly self.now (replies_of result) }
    {
        self.store.known();
        let kept = self.store.kept();
        let missing = self.store.blocks_missing();
        Some((from, transfer_told(&self.session, kept, missing, 0)))
    }

    // BLOB Block Start.
    fn block_start(
        &mut self,
        block: u16,
        chunk_size: u16,
        from: u16,
        now: u64,
    ) -> Option<(u16, BlobAnswer)>
        requires fault { fault_of self.old ≡ None }
        ensures store { store_of self.new ≡ store_of self.old }
        ensures row { (held : Slots) → Shows (store_of self.old) held → on_blob (server_of self.old held now) from (BlockStart block chunk_size) ≡ quietly self.new (replies_of result) }
    {
        let kept = self.store.kept();
        let blocks = self.store.blocks(block);
        let answer = block_started(
            &mut self.session,
            kept,
            blocks,
            block,
            chunk_size,
            from,
            now,
        );
        Some((from, answer))
    }

    // BLOB Block Get.
    fn block_get(&mut self, from: u16, now: u64) -> Option<(u16, BlobAnswer)>
        requires fault { fault_of self.old ≡ None }
        ensures store { store_of self.new ≡ store_of self.old }
        ensures row { (held : Slots) → Shows (store_of self.old) held → on_blob (server_of self.old held now) from BlockGet ≡ quietly self.new (replies_of result) }
    {
        let kept = self.store.kept();
        let answer = block_got(&mut self.session, kept, from, now);
        Some((from, answer))
    }

    // The row of a message that a server takes.
    fn request<'a>(
        &mut self,
        request: BlobRequest<'a>,
        from: u16,
        now: u64,
    ) -> Result<Option<(u16, BlobAnswer)>, StoreFault>
        requires fault { fault_of self.old ≡ None }
        requires fits { BlobRequestFits (blob_request_of request) }
        ensures answers { Answers (place_of self.new) result }
        ensures row { (held : Slots) → Shows (store_of self.old) held → IfOk result (λ reply. IsRow (store_of self.old) held (on_blob (server_of self.old held now) from (blob_request_of request.entry)) self.new (replies_of reply)) }
        ensures faults { (held : Slots) → Shows (store_of self.old) held → FaultBy (on_blob (server_of self.old held now) from (blob_request_of request.entry)).change (place_of self.old) result }
        ensures stays { IfOk result (λ _. Stays (store_of self.old) (store_of self.new)) }
        ensures still { (held : Slots) → Shows (store_of self.old) held → (on_blob (server_of self.old held now) from (blob_request_of request.entry)).change ≡ Same → store_of self.new ≡ store_of self.old }
        ensures one { (held : Slots) → Shows (store_of self.old) held → PutsOneBlock (on_blob (server_of self.old held now) from (blob_request_of request.entry)).change }
        ensures untouched { WornUntouched (place_of self.old) (place_of self.new) result }
        ensures cause { HasRisen F.seen (place_of self.old) (place_of self.new) result }
        ensures runs { (s : StoreState) (held : Slots) → PlaceHolds F.seen (place_of self.old) s → Shows (store_of self.old) held
            → PlaceGoes F.seen s (change_steps (store_of self.old) s (on_blob (server_of self.old held now) from (blob_request_of request.entry)).change) (place_of self.old) (place_of self.new) result }
    {
        self.store.known();
        match request {
            BlobRequest::BlobInformationGet => Ok(self.information(from)),
            BlobRequest::TransferGet => Ok(self.transfer_get(from)),
            BlobRequest::TransferStart { id, parameters } => {
                self.transfer_start(id, parameters, from, now)
            }
            BlobRequest::TransferCancel { id } => self.transfer_cancel(id, from, now),
            BlobRequest::BlockStart { block, chunk_size } => {
                Ok(self.block_start(block, chunk_size, from, now))
            }
            BlobRequest::BlockGet => Ok(self.block_get(from, now)),
            BlobRequest::ChunkTransfer { chunk, octets } => self.chunk(chunk, octets, now),
        }
    }

    // The row of a message.
    fn message(
        &mut self,
        msg: &BlobMsg,
        from: u16,
        now: u64,
    ) -> Result<Option<(u16, BlobAnswer)>, StoreFault>
        requires fault { fault_of self.old ≡ None }
        requires range { Fits blob_rows (view msg.now) }
        ensures answers { Answers (place_of self.new) result }
        ensures row { (held : Slots) → Shows (store_of self.old) held → IfOk result (λ reply. IsRow (store_of self.old) held (served_by (server_of self.old held now) from (request_in (view msg.now))) self.new (replies_of reply)) }
        ensures faults { (held : Slots) → Shows (store_of self.old) held → FaultBy (served_by (server_of self.old held now) from (request_in (view msg.now))).change (place_of self.old) result }
        ensures stays { IfOk result (λ _. Stays (store_of self.old) (store_of self.new)) }
        ensures still { (held : Slots) → Shows (store_of self.old) held → (served_by (server_of self.old held now) from (request_in (view msg.now))).change ≡ Same → store_of self.new ≡ store_of self.old }
        ensures one { (held : Slots) → Shows (store_of self.old) held → PutsOneBlock (served_by (server_of self.old held now) from (request_in (view msg.now))).change }
        ensures untouched { WornUntouched (place_of self.old) (place_of self.new) result }
        ensures cause { HasRisen F.seen (place_of self.old) (place_of self.new) result }
        ensures runs { (s : StoreState) (held : Slots) → PlaceHolds F.seen (place_of self.old) s → Shows (store_of self.old) held
            → PlaceGoes F.seen s (change_steps (store_of self.old) s (served_by (server_of self.old held now) from (request_in (view msg.now))).change) (place_of self.old) (place_of self.new) result }
    {
        self.store.known();
        match request_of(msg) {
            None => Ok(None),
            Some(request) => self.request(request, from, now),
        }
    }

    /// A message of the BLOB Transfer model from a peer, to the server at an address: the row of the table (MshMBT, BLOB Transfer Server behavior).
    /// A message that a server doesn't take is passed over. The outbox is empty, and is left so where a fault is answered. `Worn` comes exactly where
    /// a record is due and the count is 4,294,967,295. The server knows nothing of a job whose image was refused: its owner answers a Transfer Cancel
    /// then. A message that neither begins nor gives up a transfer nor completes a block makes no flash call, and one takes at most as many operations as
    /// the block that is put has pages, and 5.
    pub fn on_blob(
        &mut self,
        me: u16,
        from: u16,
        msg: &BlobMsg,
        now: u64,
        out: &mut Outbox,
    ) -> Result<(), StoreFault>
        requires range { Fits blob_rows (view msg.now) }
        requires empty { out.old.items ≡ [] }
        ensures answers { Answers (place_of self.new) result }
        ensures kept { KeepsServer self.old self.new result }
        ensures silent { IfErr result (λ _. out.new.items ≡ []) }
        ensures row { (held : Slots) → Shows (store_of self.old) held
            → IfOk result (λ _. IsServed me (store_of self.old) held (served_by (server_of self.old held now) from (request_in (view msg.now))) self.new (map packet_of out.new.items)) }
        ensures faults { fault_of self.old ≡ None → (held : Slots) → Shows (store_of self.old) held → FaultBy (served_by (server_of self.old held now) from (request_in (view msg.now))).change (place_of self.old) result }
        ensures stays { IfOk result (λ _. Stays (store_of self.old) (store_of self.new)) }
        ensures still { fault_of self.old ≡ None → (held : Slots) → Shows (store_of self.old) held → (served_by (server_of self.old held now) from (request_in (view msg.now))).change ≡ Same → store_of self.new ≡ store_of self.old }
        ensures work { fault_of self.old ≡ None → (s : StoreState) (held : Slots) → Shows (store_of self.old) held
            → length (change_steps (store_of self.old) s (served_by (server_of self.old held now) from (request_in (view msg.now))).change) ≤ pages_put (served_by (server_of self.old held now) from (request_in (view msg.now))).change + 5 }
        ensures untouched { WornUntouched (place_of self.old) (place_of self.new) result }
        ensures cause { HasRisen F.seen (place_of self.old) (place_of self.new) result }
        ensures runs { (s : StoreState) (held : Slots) → PlaceHolds F.seen (place_of self.old) s → Shows (store_of self.old) held
            → PlaceGoes F.seen s (change_steps (store_of self.old) s (served_by (server_of self.old held now) from (request_in (view msg.now))).change) (place_of self.old) (place_of self.new) result }
    {
        if let Some(why) = self.store.fault() {
            return Err(why);
        }
        match self.message(msg, from, now) {
            Ok(answer) => {
                reply(me, answer, out);
                Ok(())
            }
            Err(why) => Err(why),
        }
    }

    /// Time passes, at the server at an address: the timeout, else the Partial Block Report, where one is due (MshMBT, Server Timeout, Pull BLOB
    /// Transfer Mode). No fault is kept, and the outbox is empty. It makes no flash call.
    pub fn on_time(&mut self, me: u16, now: u64, out: &mut Outbox)
        requires fault { fault_of self.old ≡ None }
        requires empty { out.old.items ≡ [] }
        ensures store { store_of self.new ≡ store_of self.old }
        ensures row { (held : Slots) → Shows (store_of self.old) held
            → IsServed me (store_of self.old) held (on_server_time (server_of self.old held now) (server_of self.old held now).serving) self.new (map packet_of out.new.items) }
    {
        let due = self.session.time(self.store.kept(), now);
        reply(me, asked(due), out);
    }
}
