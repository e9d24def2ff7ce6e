// Calls of the server's own that write one record, and the call that takes a job up again.
ghost use Rattle.std.specs.Prelude.{◌≡◌, ◌<◌, ◌≤◌, [], IfOk, None, Some, is_some, true};
ghost use Rattle.mu_model_record.specs.declared.BankState.TheVariants.{Empty};
ghost use Rattle.mu_model_record.specs.Record.{capacity_of};
ghost use Rattle.mu_model_record.specs.Store.{StoreState};
ghost use Rattle.mu_model_record.specs.Next.{record_steps, fresh_after};
ghost use Rattle.mu_model_record.specs.Changes.{next_record, tagged, released, cleared};
ghost use Rattle.mu_model_node.specs.BlobServer.{unlinked, made_ready};
ghost use Rattle.mu_blob_session.specs.Blocks.{resumed};
ghost use Rattle.mu_place.specs.Place.{place_record, place_fresh, place_filling, place_held, PlaceHolds};
ghost use Rattle.mu_place.specs.Calls.{Answers, WornAtLast, WornUntouched, HasRisen, PlaceGoes};
ghost use Rattle.mu_kept.specs.Views.{job_in, expected, flags_in};
ghost use Rattle.mu_kept.specs.Calls.{note_in, banks_given_up, given_up, JobStays};
ghost use Rattle.mu_kept.specs.Tags.{tag_with};
ghost use Rattle.mu_blobsrv.specs.Views.{store_of, place_of, fault_of, session_of};
ghost use Rattle.mu_blobsrv.specs.Runs.{KeepsServer};

use crate::server::BlobServer;
use mu_kept::{Expect, Note};
use mu_outside::Flash;
use mu_store::StoreFault;

impl<F: Flash> BlobServer<F> {
    /// Writes a job, in place of an earlier one, in one record with this note: a bank that is being filled becomes Empty, and a Sealed one stays. The
    /// link becomes Ready, and it is heard. The size is 1 to the capacity, and the bank below `banks()`.
    pub fn expect(&mut self, what: Expect, note: &Note, now: u64) -> Result<(), StoreFault>
        requires least { 1 ≤ what.size }
        requires most { fault_of self.old ≡ None → what.size ≤ capacity_of (place_record (place_of self.old)) }
        requires there { fault_of self.old ≡ None → what.bank < (place_record (place_of self.old)).number }
        ensures answers { Answers (place_of self.new) result }
        ensures kept { KeepsServer self.old self.new result }
        ensures session { IfOk result (λ _. session_of self.new ≡ made_ready now (unlinked (session_of self.old))) }
        ensures job { IfOk result (λ _. job_in (store_of self.new) ≡ Some (expected what)) }
        ensures flags { IfOk result (λ _. flags_in (store_of self.new) ≡ []) }
        ensures note { IfOk result (λ _. note_in (store_of self.new) ≡ note.now) }
        ensures fields { IfOk result (λ _. place_record (place_of self.new) ≡ next_record (place_record (place_of self.old)) (banks_given_up (place_filling (place_of self.old)) (place_record (place_of self.old)).banks) (tag_with (Some (expected what)) note.now)) }
        ensures fresh { IfOk result (λ _. place_fresh (place_of self.new) ≡ fresh_after (place_fresh (place_of self.old)) (place_record (place_of self.new))) }
        ensures filling { IfOk result (λ _. place_filling (place_of self.new) ≡ None) }
        ensures worn { WornAtLast (place_of self.old) result }
        ensures untouched { WornUntouched (place_of self.old) (place_of self.new) result }
        ensures cause { HasRisen F.seen (place_of self.old) (place_of self.new) result }
        ensures runs { (s : StoreState) → PlaceHolds F.seen (place_of self.old) s
            → PlaceGoes F.seen s (record_steps (place_fresh (place_of self.old)) s (given_up (place_filling (place_of self.old)) s (tag_with (Some (expected what)) note.now))) (place_of self.old) (place_of self.new) result }
    {
        if let Some(why) = self.store.fault() {
            return Err(why);
        }
        self.store.expect(what, note)?;
        self.session.unlink();
        self.session.make_ready(now);
        Ok(())
    }

    /// Takes the job up again, of which there is one: it is heard, and a Cut link becomes Ready. No fault is kept.
    pub fn resume(&mut self, now: u64)
        requires fault { fault_of self.old ≡ None }
        requires job { is_some (job_in (store_of self.old)) ≡ true }
        ensures store { store_of self.new ≡ store_of self.old }
        ensures session { session_of self.new ≡ resumed now (session_of self.old) }
    {
        self.session.resume(now);
    }

    /// The link becomes Cut, and the block that comes is gone. No fault is kept.
    pub fn unlink(&mut self)
        requires { fault_of self.old ≡ None }
        ensures store { store_of self.new ≡ store_of self.old }
        ensures session { session_of self.new ≡ unlinked (session_of self.old) }
    {
        self.session.unlink();
    }

    /// Writes one record with this note, all else as it was.
    pub fn commit(&mut self, note: &Note) -> Result<(), StoreFault>
        ensures answers { Answers (place_of self.new) result }
        ensures kept { KeepsServer self.old self.new result }
        ensures session { IfOk result (λ _. session_of self.new ≡ session_of self.old) }
        ensures job { IfOk result (λ _. job_in (store_of self.new) ≡ job_in (store_of self.old)) }
        ensures flags { IfOk result (λ _. flags_in (store_of self.new) ≡ flags_in (store_of self.old)) }
        ensures note { IfOk result (λ _. note_in (store_of self.new) ≡ note.now) }
        ensures fields { IfOk result (λ _. place_record (place_of self.new) ≡ next_record (place_record (place_of self.old)) (place_record (place_of self.old)).banks (tag_with (job_in (store_of self.old)) note.now)) }
        ensures fresh { IfOk result (λ _. place_fresh (place_of self.new) ≡ fresh_after (place_fresh (place_of self.old)) (place_record (place_of self.new))) }
        ensures filling { IfOk result (λ _. place_filling (place_of self.new) ≡ place_filling (place_of self.old)) }
        ensures held { IfOk result (λ _. place_held (place_of self.new) ≡ place_held (place_of self.old)) }
        ensures worn { WornAtLast (place_of self.old) result }
        ensures untouched { WornUntouched (place_of self.old) (place_of self.new) result }
        ensures cause { HasRisen F.seen (place_of self.old) (place_of self.new) result }
        ensures runs { (s : StoreState) → PlaceHolds F.seen (place_of self.old) s
            → PlaceGoes F.seen s (record_steps (place_fresh (place_of self.old)) s (tagged s (tag_with (job_in (store_of self.old)) note.now))) (place_of self.old) (place_of self.new) result }
    {
        if let Some(why) = self.store.fault() {
            return Err(why);
        }
        self.store.commit(note)
    }

    /// Ends the job, in one record with this note. A bank that is being filled becomes Empty, and a Sealed one stays. The link becomes Cut.
    pub fn drop_job(&mut self, note: &Note) -> Result<(), StoreFault>
        ensures answers { Answers (place_of self.new) result }
        ensures kept { KeepsServer self.old self.new result }
        ensures session { IfOk result (λ _. session_of self.new ≡ unlinked (session_of self.old)) }
        ensures job { IfOk result (λ _. job_in (store_of self.new) ≡ None) }
        ensures flags { IfOk result (λ _. flags_in (store_of self.new) ≡ []) }
        ensures note { IfOk result (λ _. note_in (store_of self.new) ≡ note.now) }
        ensures fields { IfOk result (λ _. place_record (place_of self.new) ≡ next_record (place_record (place_of self.old)) (banks_given_up (place_filling (place_of self.old)) (place_record (place_of self.old)).banks) (tag_with None note.now)) }
        ensures fresh { IfOk result (λ _. place_fresh (place_of self.new) ≡ fresh_after (place_fresh (place_of self.old)) (place_record (place_of self.new))) }
        ensures filling { IfOk result (λ _. place_filling (place_of self.new) ≡ None) }
        ensures worn { WornAtLast (place_of self.old) result }
        ensures untouched { WornUntouched (place_of self.old) (place_of self.new) result }
        ensures cause { HasRisen F.seen (place_of self.old) (place_of self.new) result }
        ensures runs { (s : StoreState) → PlaceHolds F.seen (place_of self.old) s
            → PlaceGoes F.seen s (record_steps (place_fresh (place_of self.old)) s (given_up (place_filling (place_of self.old)) s (tag_with None note.now))) (place_of self.old) (place_of self.new) result }
    {
        if let Some(why) = self.store.fault() {
            return Err(why);
        }
        self.store.drop_job(note)?;
        self.session.unlink();
        Ok(())
    }

    /// The named banks become Empty, in one record with this note. No bank is being filled, and the bank of a job with parameters isn't named.
    pub fn release(&mut self, banks: [bool; 4], note: &Note) -> Result<(), StoreFault>
        requires rests { place_filling (place_of self.old) ≡ None }
        requires stays { fault_of self.old ≡ None → JobStays banks (job_in (store_of self.old)) }
        ensures answers { Answers (place_of self.new) result }
        ensures kept { KeepsServer self.old self.new result }
        ensures session { IfOk result (λ _. session_of self.new ≡ session_of self.old) }
        ensures job { IfOk result (λ _. job_in (store_of self.new) ≡ job_in (store_of self.old)) }
        ensures flags { IfOk result (λ _. flags_in (store_of self.new) ≡ flags_in (store_of self.old)) }
        ensures note { IfOk result (λ _. note_in (store_of self.new) ≡ note.now) }
        ensures fields { IfOk result (λ _. place_record (place_of self.new) ≡ next_record (place_record (place_of self.old)) (cleared Empty banks (place_record (place_of self.old)).banks) (tag_with (job_in (store_of self.old)) note.now)) }
        ensures fresh { IfOk result (λ _. place_fresh (place_of self.new) ≡ fresh_after (place_fresh (place_of self.old)) (place_record (place_of self.new))) }
        ensures filling { IfOk result (λ _. place_filling (place_of self.new) ≡ None) }
        ensures worn { WornAtLast (place_of self.old) result }
        ensures untouched { WornUntouched (place_of self.old) (place_of self.new) result }
        ensures cause { HasRisen F.seen (place_of self.old) (place_of self.new) result }
        ensures runs { (s : StoreState) → PlaceHolds F.seen (place_of self.old) s
            → PlaceGoes F.seen s (record_steps (place_fresh (place_of self.old)) s (released s banks (tag_with (job_in (store_of self.old)) note.now))) (place_of self.old) (place_of self.new) result }
    {
        if let Some(why) = self.store.fault() {
            return Err(why);
        }
        self.store.release(banks, note)
    }
}
