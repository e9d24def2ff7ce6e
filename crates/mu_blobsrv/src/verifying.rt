// A job that is verified.
ghost use Rattle.std.specs.Prelude.{◌≡◌, true, false, if◌then◌else◌, IsTrue, IfOk, IfSome, None};
ghost use Rattle.mu_model_image.specs.Meta.{is_fit};
ghost use Rattle.mu_model_record.specs.Store.{StoreState, content_of_bank};
ghost use Rattle.mu_model_record.specs.Next.{record_steps, fresh_after};
ghost use Rattle.mu_model_record.specs.Changes.{blocks_in, joined, sealed_or_not};
ghost use Rattle.mu_place.specs.Place.{place_record, place_fresh, place_filling, PlaceHolds};
ghost use Rattle.mu_place.specs.Calls.{Answers, WornAtLast, WornUntouched, HasRisen, PlaceGoes, closed_record, FitsOctets};
ghost use Rattle.mu_kept.specs.Views.{job_in, bank_in, flags_in};
ghost use Rattle.mu_kept.specs.Calls.{note_in, CanVerify, verified, verified_flags};
ghost use Rattle.mu_kept.specs.Tags.{tag_with};
ghost use Rattle.mu_blobsrv.specs.Views.{store_of, place_of, fault_of, session_of};
ghost use Rattle.mu_blobsrv.specs.Runs.{KeepsServer, verified_session};

use crate::server::BlobServer;
use mu_image::Meta;
use mu_kept::Note;
use mu_outside::Flash;
use mu_store::StoreFault;

impl<F: Flash> BlobServer<F> {
    /// Reads the job's bank and hashes it, and answers whether its octets fit the metadata. It becomes Sealed, in one record with the note `fit`, or
    /// Empty, in one with the note `unfit`. With `keep` the job stays, after octets that don't fit without parameters and with the link Cut; without
    /// it the job goes in that record, and the link becomes Cut. The job's bank is being filled and each of its blocks is held.
    #[tactic(auto, using(crate::proofs::Suited::suits_whole))]
    pub fn verify(
        &mut self,
        meta: &Meta,
        keep: bool,
        fit: &Note,
        unfit: &Note,
    ) -> Result<bool, StoreFault>
        requires { fault_of self.old ≡ None → CanVerify (store_of self.old) }
        ensures answers { Answers (place_of self.new) result }
        ensures kept { KeepsServer self.old self.new result }
        ensures session { IfOk result (λ is_fit. session_of self.new ≡ verified_session keep is_fit (session_of self.old)) }
        ensures job { IfOk result (λ is_fit. job_in (store_of self.new) ≡ verified keep is_fit (job_in (store_of self.old))) }
        ensures flags { IfOk result (λ is_fit. flags_in (store_of self.new) ≡ verified_flags keep is_fit (flags_in (store_of self.old))) }
        ensures note { IfOk result (λ is_fit. note_in (store_of self.new) ≡ (if is_fit then fit.now else unfit.now)) }
        ensures fields { IfOk result (λ is_fit. place_record (place_of self.new) ≡ closed_record (place_record (place_of self.old)) (bank_in (store_of self.old)) meta.now (tag_with (verified keep true (job_in (store_of self.old))) fit.now) (tag_with (verified keep false (job_in (store_of self.old))) unfit.now) is_fit) }
        ensures fresh { IfOk result (λ _. place_fresh (place_of self.new) ≡ fresh_after (place_fresh (place_of self.old)) (place_record (place_of self.new))) }
        ensures filling { IfOk result (λ _. place_filling (place_of self.new) ≡ None) }
        ensures fit { (s : StoreState) → PlaceHolds F.seen (place_of self.old) s → IfOk result (λ fit. fit ≡ is_fit (joined (blocks_in (content_of_bank s (bank_in (store_of self.old))))) meta.now) }
        ensures octets { FitsOctets F.seen (place_of self.old) meta.now result }
        ensures size { IfOk result (λ fit. IsTrue fit → IfSome (job_in (store_of self.old)) (λ j. j.size ≡ meta.now.size)) }
        ensures worn { WornAtLast (place_of self.old) result }
        ensures untouched { WornUntouched (place_of self.old) (place_of self.new) result }
        ensures cause { HasRisen F.seen (place_of self.old) (place_of self.new) result }
        ensures runs { (s : StoreState) → PlaceHolds F.seen (place_of self.old) s
            → PlaceGoes F.seen s (record_steps (place_fresh (place_of self.old)) s (sealed_or_not s (bank_in (store_of self.old)) meta.now (tag_with (verified keep true (job_in (store_of self.old))) fit.now) (tag_with (verified keep false (job_in (store_of self.old))) unfit.now))) (place_of self.old) (place_of self.new) result }
    {
        if let Some(why) = self.store.fault() {
            return Err(why);
        }
        let is_fit = self.store.verify(meta, keep, fit, unfit)?;
        if !(keep && is_fit) {
            self.session.unlink();
        }
        Ok(is_fit)
    }
}
