// Calls that write one record of a job.
ghost use Rattle.std.specs.Prelude.{◌≡◌, ◌<◌, ◌≤◌, [], IfOk, IfSome, None, Some};
ghost use Rattle.mu_model_record.specs.declared.BankState.TheVariants.{Empty};
ghost use Rattle.mu_model_record.specs.Record.{capacity_of};
ghost use Rattle.mu_model_record.specs.Store.{StoreState};
ghost use Rattle.mu_model_record.specs.Next.{record_steps, fresh_after};
ghost use Rattle.mu_model_record.specs.Changes.{next_record, tagged, released, cleared};
ghost use Rattle.mu_place.specs.Place.{place_fault, place_record, place_fresh, place_filling, place_held, PlaceHolds};
ghost use Rattle.mu_place.specs.Calls.{Answers, WornAtLast, WornUntouched, HasRisen, PlaceGoes};
ghost use Rattle.mu_kept.specs.Views.{place_in, job_in, expected, flags_in};
ghost use Rattle.mu_kept.specs.Tags.{tag_with};
ghost use Rattle.mu_kept.specs.Calls.{KeepsStore, note_in, banks_given_up, given_up, JobStays};

use crate::store::{Expect, JobStore};
use crate::tags::tag_with;
use mu_note::{BlobJob, Note};
use mu_outside::Flash;
use mu_store::StoreFault;

impl<F: Flash> JobStore<F> {
    // Writes another job, or none: the bank that was being filled, if one was, becomes Empty.
    fn replace(&mut self, job: Option<BlobJob>, note: &Note) -> Result<(), StoreFault>
        requires none { IfSome job (λ j. j.parameters ≡ None) }
        requires least { IfSome job (λ j. 1 ≤ j.size) }
        requires most { place_fault (place_in self.old) ≡ None → IfSome job (λ j. j.size ≤ capacity_of (place_record (place_in self.old))) }
        requires there { place_fault (place_in self.old) ≡ None → IfSome job (λ j. j.bank < (place_record (place_in self.old)).number) }
        ensures answers { Answers (place_in self.new) result }
        ensures kept { KeepsStore self.old self.new result }
        ensures job { IfOk result (λ _. job_in self.new ≡ job) }
        ensures flags { IfOk result (λ _. flags_in self.new ≡ []) }
        ensures note { IfOk result (λ _. note_in self.new ≡ note.now) }
        ensures fields { IfOk result (λ _. place_record (place_in self.new) ≡ next_record (place_record (place_in self.old)) (banks_given_up (place_filling (place_in self.old)) (place_record (place_in self.old)).banks) (tag_with job note.now)) }
        ensures fresh { IfOk result (λ _. place_fresh (place_in self.new) ≡ fresh_after (place_fresh (place_in self.old)) (place_record (place_in self.new))) }
        ensures filling { IfOk result (λ _. place_filling (place_in self.new) ≡ None) }
        ensures worn { WornAtLast (place_in self.old) result }
        ensures untouched { WornUntouched (place_in self.old) (place_in self.new) result }
        ensures cause { HasRisen F.seen (place_in self.old) (place_in self.new) result }
        ensures runs { (s : StoreState) → PlaceHolds F.seen (place_in self.old) s
            → PlaceGoes F.seen s (record_steps (place_fresh (place_in self.old)) s (given_up (place_filling (place_in self.old)) s (tag_with job note.now))) (place_in self.old) (place_in self.new) result }
    {
        if let Some(why) = self.place.fault() {
            return Err(why);
        }
        let tag = tag_with(job, note);
        self.job = job;
        if self.place.filling().is_some() {
            let result = self.place.give_up(&tag);
            self.place.known();
            result
        } else {
            let result = self.place.commit(&tag);
            self.place.known();
            result
        }
    }

    /// Writes a job without parameters, in place of an earlier one, in one record with this note. A bank that is being filled becomes Empty, and a
    /// Sealed one stays. Where no fault is kept the size is 1 to the capacity and the bank below `banks()`.
    pub fn expect(&mut self, what: Expect, note: &Note) -> Result<(), StoreFault>
        requires least { 1 ≤ what.size }
        requires most { place_fault (place_in self.old) ≡ None → what.size ≤ capacity_of (place_record (place_in self.old)) }
        requires there { place_fault (place_in self.old) ≡ None → what.bank < (place_record (place_in self.old)).number }
        ensures answers { Answers (place_in self.new) result }
        ensures kept { KeepsStore self.old self.new result }
        ensures job { IfOk result (λ _. job_in self.new ≡ Some (expected what)) }
        ensures flags { IfOk result (λ _. flags_in self.new ≡ []) }
        ensures note { IfOk result (λ _. note_in self.new ≡ note.now) }
        ensures fields { IfOk result (λ _. place_record (place_in self.new) ≡ next_record (place_record (place_in self.old)) (banks_given_up (place_filling (place_in self.old)) (place_record (place_in self.old)).banks) (tag_with (Some (expected what)) note.now)) }
        ensures fresh { IfOk result (λ _. place_fresh (place_in self.new) ≡ fresh_after (place_fresh (place_in self.old)) (place_record (place_in self.new))) }
        ensures filling { IfOk result (λ _. place_filling (place_in self.new) ≡ None) }
        ensures worn { WornAtLast (place_in self.old) result }
        ensures untouched { WornUntouched (place_in self.old) (place_in self.new) result }
        ensures cause { HasRisen F.seen (place_in self.old) (place_in self.new) result }
        ensures runs { (s : StoreState) → PlaceHolds F.seen (place_in self.old) s
            → PlaceGoes F.seen s (record_steps (place_fresh (place_in self.old)) s (given_up (place_filling (place_in self.old)) s (tag_with (Some (expected what)) note.now))) (place_in self.old) (place_in self.new) result }
    {
        let job = BlobJob {
            id: what.id,
            size: what.size,
            base: what.base,
            bank: what.bank,
            parameters: None,
        };
        self.replace(Some(job), note)
    }

    /// Ends the job, in one record with this note. A bank that is being filled becomes Empty, and a Sealed one stays.
    pub fn drop_job(&mut self, note: &Note) -> Result<(), StoreFault>
        ensures answers { Answers (place_in self.new) result }
        ensures kept { KeepsStore self.old self.new result }
        ensures job { IfOk result (λ _. job_in self.new ≡ None) }
        ensures flags { IfOk result (λ _. flags_in self.new ≡ []) }
        ensures note { IfOk result (λ _. note_in self.new ≡ note.now) }
        ensures fields { IfOk result (λ _. place_record (place_in self.new) ≡ next_record (place_record (place_in self.old)) (banks_given_up (place_filling (place_in self.old)) (place_record (place_in self.old)).banks) (tag_with None note.now)) }
        ensures fresh { IfOk result (λ _. place_fresh (place_in self.new) ≡ fresh_after (place_fresh (place_in self.old)) (place_record (place_in self.new))) }
        ensures filling { IfOk result (λ _. place_filling (place_in self.new) ≡ None) }
        ensures worn { WornAtLast (place_in self.old) result }
        ensures untouched { WornUntouched (place_in self.old) (place_in self.new) result }
        ensures cause { HasRisen F.seen (place_in self.old) (place_in self.new) result }
        ensures runs { (s : StoreState) → PlaceHolds F.seen (place_in self.old) s
            → PlaceGoes F.seen s (record_steps (place_fresh (place_in self.old)) s (given_up (place_filling (place_in self.old)) s (tag_with None note.now))) (place_in self.old) (place_in self.new) result }
    {
        self.replace(None, note)
    }

    /// Writes one record with this note, all else as it was.
    pub fn commit(&mut self, note: &Note) -> Result<(), StoreFault>
        ensures answers { Answers (place_in self.new) result }
        ensures kept { KeepsStore self.old self.new result }
        ensures job { IfOk result (λ _. job_in self.new ≡ job_in self.old) }
        ensures flags { IfOk result (λ _. flags_in self.new ≡ flags_in self.old) }
        ensures note { IfOk result (λ _. note_in self.new ≡ note.now) }
        ensures fields { IfOk result (λ _. place_record (place_in self.new) ≡ next_record (place_record (place_in self.old)) (place_record (place_in self.old)).banks (tag_with (job_in self.old) note.now)) }
        ensures fresh { IfOk result (λ _. place_fresh (place_in self.new) ≡ fresh_after (place_fresh (place_in self.old)) (place_record (place_in self.new))) }
        ensures filling { IfOk result (λ _. place_filling (place_in self.new) ≡ place_filling (place_in self.old)) }
        ensures held { IfOk result (λ _. place_held (place_in self.new) ≡ place_held (place_in self.old)) }
        ensures worn { WornAtLast (place_in self.old) result }
        ensures untouched { WornUntouched (place_in self.old) (place_in self.new) result }
        ensures cause { HasRisen F.seen (place_in self.old) (place_in self.new) result }
        ensures runs { (s : StoreState) → PlaceHolds F.seen (place_in self.old) s
            → PlaceGoes F.seen s (record_steps (place_fresh (place_in self.old)) s (tagged s (tag_with (job_in self.old) note.now))) (place_in self.old) (place_in self.new) result }
    {
        if let Some(why) = self.place.fault() {
            return Err(why);
        }
        let job = self.job;
        let tag = tag_with(job, note);
        self.place.commit(&tag)
    }

    /// The named banks become Empty, in one record with this note. No bank is being filled, and where no fault is kept the bank of a job with
    /// parameters isn't named.
    pub fn release(&mut self, banks: [bool; 4], note: &Note) -> Result<(), StoreFault>
        requires rests { place_filling (place_in self.old) ≡ None }
        requires stays { place_fault (place_in self.old) ≡ None → JobStays banks (job_in self.old) }
        ensures answers { Answers (place_in self.new) result }
        ensures kept { KeepsStore self.old self.new result }
        ensures job { IfOk result (λ _. job_in self.new ≡ job_in self.old) }
        ensures flags { IfOk result (λ _. flags_in self.new ≡ flags_in self.old) }
        ensures note { IfOk result (λ _. note_in self.new ≡ note.now) }
        ensures fields { IfOk result (λ _. place_record (place_in self.new) ≡ next_record (place_record (place_in self.old)) (cleared Empty banks (place_record (place_in self.old)).banks) (tag_with (job_in self.old) note.now)) }
        ensures fresh { IfOk result (λ _. place_fresh (place_in self.new) ≡ fresh_after (place_fresh (place_in self.old)) (place_record (place_in self.new))) }
        ensures filling { IfOk result (λ _. place_filling (place_in self.new) ≡ None) }
        ensures worn { WornAtLast (place_in self.old) result }
        ensures untouched { WornUntouched (place_in self.old) (place_in self.new) result }
        ensures cause { HasRisen F.seen (place_in self.old) (place_in self.new) result }
        ensures runs { (s : StoreState) → PlaceHolds F.seen (place_in self.old) s
            → PlaceGoes F.seen s (record_steps (place_fresh (place_in self.old)) s (released s banks (tag_with (job_in self.old) note.now))) (place_in self.old) (place_in self.new) result }
    {
        if let Some(why) = self.place.fault() {
            return Err(why);
        }
        let job = self.job;
        let tag = tag_with(job, note);
        self.place.known();
        self.place.release(banks, &tag)
    }
}
