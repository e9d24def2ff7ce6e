// A job that is verified.
ghost use Rattle.std.specs.Prelude.{◌≡◌, true, false, if◌then◌else◌, IsTrue, IfOk, IfSome, None};
ghost use Rattle.mu_model_image.specs.Meta.{is_fit};
ghost use Rattle.mu_model_record.specs.Store.{StoreState, content_of_bank};
ghost use Rattle.mu_model_record.specs.Next.{record_steps, fresh_after};
ghost use Rattle.mu_model_record.specs.Changes.{blocks_in, joined, sealed_or_not};
ghost use Rattle.mu_place.specs.Place.{place_fault, place_record, place_fresh, place_filling, PlaceHolds};
ghost use Rattle.mu_place.specs.Calls.{Answers, WornAtLast, WornUntouched, HasRisen, PlaceGoes, closed_record, FitsOctets};
ghost use Rattle.mu_kept.specs.Views.{place_in, job_in, bank_in, flags_in};
ghost use Rattle.mu_kept.specs.Tags.{tag_with};
ghost use Rattle.mu_kept.specs.Calls.{KeepsStore, note_in, CanVerify, verified, verified_flags};

use crate::store::JobStore;
use crate::tags::tag_with;
use mu_image::Meta;
use mu_note::{BlobJob, Note};
use mu_outside::Flash;
use mu_store::StoreFault;

fn job_after(keep: bool, fit: bool, job: &Option<BlobJob>) -> Option<BlobJob>
    ensures { result ≡ verified keep fit job.now }
{
    match job {
        Some(job) if keep && fit => Some(*job),
        Some(job) if keep => Some(BlobJob {
            parameters: None,
            ..*job
        }),
        _ => None,
    }
}

fn is_fit(sealed: &Result<bool, StoreFault>) -> bool
    ensures { IfOk sealed.now (λ fit. result ≡ fit) }
{
    match sealed {
        Ok(fit) => *fit,
        Err(_) => false,
    }
}

impl<F: Flash> JobStore<F> {
    /// Reads the job's bank and hashes it, and answers whether its octets fit the metadata. It becomes Sealed, in one record with the note `fit`, or
    /// Empty, in one with the note `unfit`. With `keep` the job stays, after octets that don't fit without parameters; without it the job goes in that
    /// record. Where no fault is kept the job's bank is being filled and each of its blocks is held.
    pub fn verify(
        &mut self,
        meta: &Meta,
        keep: bool,
        fit: &Note,
        unfit: &Note,
    ) -> Result<bool, StoreFault>
        requires { place_fault (place_in self.old) ≡ None → CanVerify self.old }
        ensures answers { Answers (place_in self.new) result }
        ensures kept { KeepsStore self.old self.new result }
        ensures job { IfOk result (λ is_fit. job_in self.new ≡ verified keep is_fit (job_in self.old)) }
        ensures flags { IfOk result (λ is_fit. flags_in self.new ≡ verified_flags keep is_fit (flags_in self.old)) }
        ensures note { IfOk result (λ is_fit. note_in self.new ≡ (if is_fit then fit.now else unfit.now)) }
        ensures fields { IfOk result (λ is_fit. place_record (place_in self.new) ≡ closed_record (place_record (place_in self.old)) (bank_in self.old) meta.now (tag_with (verified keep true (job_in self.old)) fit.now) (tag_with (verified keep false (job_in self.old)) unfit.now) is_fit) }
        ensures fresh { IfOk result (λ _. place_fresh (place_in self.new) ≡ fresh_after (place_fresh (place_in self.old)) (place_record (place_in self.new))) }
        ensures filling { IfOk result (λ _. place_filling (place_in self.new) ≡ None) }
        ensures fit { (s : StoreState) → PlaceHolds F.seen (place_in self.old) s → IfOk result (λ fit. fit ≡ is_fit (joined (blocks_in (content_of_bank s (bank_in self.old)))) meta.now) }
        ensures octets { FitsOctets F.seen (place_in self.old) meta.now result }
        ensures size { IfOk result (λ fit. IsTrue fit → IfSome (job_in self.old) (λ j. j.size ≡ meta.now.size)) }
        ensures worn { WornAtLast (place_in self.old) result }
        ensures untouched { WornUntouched (place_in self.old) (place_in self.new) result }
        ensures cause { HasRisen F.seen (place_in self.old) (place_in self.new) result }
        ensures runs { (s : StoreState) → PlaceHolds F.seen (place_in self.old) s
            → PlaceGoes F.seen s (record_steps (place_fresh (place_in self.old)) s (sealed_or_not s (bank_in self.old) meta.now (tag_with (verified keep true (job_in self.old)) fit.now) (tag_with (verified keep false (job_in self.old)) unfit.now))) (place_in self.old) (place_in self.new) result }
    {
        if let Some(why) = self.place.fault() {
            return Err(why);
        }
        self.place.known();
        let job = self.job;
        let sealed = job_after(keep, true, &job);
        let emptied = job_after(keep, false, &job);
        let fit_tag = tag_with(sealed, fit);
        let unfit_tag = tag_with(emptied, unfit);
        let result = self.place.seal(meta, &fit_tag, &unfit_tag);
        self.place.known();
        self.job = job_after(keep, is_fit(&result), &job);
        result
    }
}
