// A job whose blocks come.
ghost use Rattle.std.specs.Prelude.{◌≡◌, ◌≤◌, ◌∷◌, [], true, false, IfOk, IfErr, None, Some, length, replicate, slice_set};
ghost use Rattle.std.specs.Option.{option_map};
ghost use Rattle.mu_model_image.specs.Pieces.{block_count, piece_count};
ghost use Rattle.mu_model_record.specs.declared.BankState.TheVariants.{Empty};
ghost use Rattle.mu_model_record.specs.Record.{capacity_of};
ghost use Rattle.mu_model_record.specs.Store.{StoreState};
ghost use Rattle.mu_model_record.specs.Next.{record_steps, block_steps, fresh_after};
ghost use Rattle.mu_model_record.specs.Changes.{next_record, begun, filling_entry, emptied, with_block};
ghost use Rattle.mu_model_node.specs.declared.Parameters.{Parameters as AnyParameters};
ghost use Rattle.mu_model_node.specs.Slots.{Slots};
ghost use Rattle.mu_model_node.specs.BlobServer.{Begins, Drops, Puts};
ghost use Rattle.mu_blob_rows.specs.Rows.{ChangeFits};
ghost use Rattle.mu_blob_rows.specs.declared.table.TransferChange.TheVariants.{Begin, Drop};
ghost use Rattle.mu_place.specs.Place.{place_fault, place_record, place_fresh, place_filling, place_held, PlaceHolds};
ghost use Rattle.mu_place.specs.Calls.{Answers, WornAtLast, WornUntouched, HasRisen, PlaceGoes};
ghost use Rattle.mu_kept.specs.Views.{place_in, job_in, bank_in, with_parameters, flags_in, serving_in};
ghost use Rattle.mu_kept.specs.Shows.{Shows, IsChanged};
ghost use Rattle.mu_model_represents.specs.BlobPart.{blob_part, note_part, IsBlobPart};
ghost use Rattle.mu_note.specs.Views.{part_job};
ghost use Rattle.mu_kept.specs.Tags.{tag_with, CanSpell};
ghost use Rattle.mu_kept.specs.Calls.{KeepsStore, note_in, CanPutBlock};

use crate::store::JobStore;
use crate::tags::tag_with;
use mu_model_node::Parameters;
use mu_note::{BlobJob, Tag, note_of};
use mu_outside::Flash;
use mu_place::FillingBank;
use mu_store::StoreFault;

impl<F: Flash> JobStore<F> {
    // The tag of a job with the note that stands. No fault is kept.
    fn next_tag(&self, job: BlobJob) -> Tag
        requires fault { place_fault (place_in self.now) ≡ None }
        requires spelled { CanSpell (Some job) }
        ensures tag { result ≡ tag_with (Some job) (note_in self.now) }
        ensures part { IsBlobPart (Some (part_job job)) (blob_part result) }
        ensures note { note_part result ≡ note_in self.now }
    {
        tag_with(Some(job), note_of(self.place.tag()))
    }

    /// A transfer of the job is begun with these parameters: its bank, Empty or Sealed before, becomes Filling, in one record with the note that
    /// stands. The mode is 1 or 2 and the MTU at least 20; where no fault is kept there is a job without parameters, the size is the job's, and the
    /// log is 12..14.
    pub fn begin(&mut self, parameters: Parameters) -> Result<(), StoreFault>
        requires mode_least { 1 ≤ parameters.mode }
        requires mode_most { parameters.mode ≤ 2 }
        requires mtu_least { 20 ≤ parameters.mtu }
        requires fits { place_fault (place_in self.old) ≡ None → ChangeFits (serving_in self.old) (capacity_of (place_record (place_in self.old))) parameters Begin }
        ensures answers { Answers (place_in self.new) result }
        ensures kept { KeepsStore self.old self.new result }
        ensures job { IfOk result (λ _. job_in self.new ≡ option_map (with_parameters (Some parameters)) (job_in self.old)) }
        ensures flags { IfOk result (λ _. flags_in self.new ≡ replicate (block_count parameters.size parameters.log) false) }
        ensures note { IfOk result (λ _. note_in self.new ≡ note_in self.old) }
        ensures changed { (held : Slots) → Shows self.old held → IfOk result (λ _. IsChanged self.old self.new (Begins parameters) held) }
        ensures fields { IfOk result (λ _. place_record (place_in self.new) ≡ next_record (place_record (place_in self.old)) (slice_set (place_record (place_in self.old)).banks (bank_in self.old) (filling_entry parameters.size parameters.log)) (tag_with (option_map (with_parameters (Some parameters)) (job_in self.old)) (note_in self.old))) }
        ensures fresh { IfOk result (λ _. place_fresh (place_in self.new) ≡ fresh_after (place_fresh (place_in self.old)) (place_record (place_in self.new))) }
        ensures filling { IfOk result (λ _. place_filling (place_in self.new) ≡ Some (record { bank = bank_in self.old; size = parameters.size; log = parameters.log })) }
        ensures held { IfOk result (λ _. place_held (place_in self.new) ≡ replicate (block_count parameters.size parameters.log) false) }
        ensures worn { WornAtLast (place_in self.old) result }
        ensures untouched { WornUntouched (place_in self.old) (place_in self.new) result }
        ensures cause { HasRisen F.seen (place_in self.old) (place_in self.new) result }
        ensures runs { (s : StoreState) → PlaceHolds F.seen (place_in self.old) s
            → PlaceGoes F.seen s (s ∷ record_steps (place_fresh (place_in self.old)) s (begun s (bank_in self.old) parameters.size parameters.log (tag_with (option_map (with_parameters (Some parameters)) (job_in self.old)) (note_in self.old)))) (place_in self.old) (place_in self.new) result }
    {
        if let Some(why) = self.place.fault() {
            return Err(why);
        }
        self.place.known();
        let Some(job) = self.job else { unreachable!() };
        let next = BlobJob {
            parameters: Some(parameters),
            ..job
        };
        let tag = self.next_tag(next);
        let filling = FillingBank {
            bank: job.bank,
            size: parameters.size,
            log: parameters.log,
        };
        let result = self.place.begin(filling, &tag);
        self.job = Some(next);
        result
    }

    /// The parameters and the held blocks of the job go: its bank becomes Empty, in one record with the note that stands. Where no fault is kept there
    /// is a job with parameters that lacks a block.
    pub fn drop_transfer(&mut self) -> Result<(), StoreFault>
        requires { place_fault (place_in self.old) ≡ None → (p : AnyParameters) → ChangeFits (serving_in self.old) (capacity_of (place_record (place_in self.old))) p Drop }
        ensures answers { Answers (place_in self.new) result }
        ensures kept { KeepsStore self.old self.new result }
        ensures job { IfOk result (λ _. job_in self.new ≡ option_map (with_parameters None) (job_in self.old)) }
        ensures flags { IfOk result (λ _. flags_in self.new ≡ []) }
        ensures note { IfOk result (λ _. note_in self.new ≡ note_in self.old) }
        ensures changed { (held : Slots) → Shows self.old held → IfOk result (λ _. IsChanged self.old self.new Drops held) }
        ensures fields { IfOk result (λ _. place_record (place_in self.new) ≡ next_record (place_record (place_in self.old)) (slice_set (place_record (place_in self.old)).banks (bank_in self.old) Empty) (tag_with (option_map (with_parameters None) (job_in self.old)) (note_in self.old))) }
        ensures fresh { IfOk result (λ _. place_fresh (place_in self.new) ≡ fresh_after (place_fresh (place_in self.old)) (place_record (place_in self.new))) }
        ensures filling { IfOk result (λ _. place_filling (place_in self.new) ≡ None) }
        ensures worn { WornAtLast (place_in self.old) result }
        ensures untouched { WornUntouched (place_in self.old) (place_in self.new) result }
        ensures cause { HasRisen F.seen (place_in self.old) (place_in self.new) result }
        ensures runs { (s : StoreState) → PlaceHolds F.seen (place_in self.old) s
            → PlaceGoes F.seen s (record_steps (place_fresh (place_in self.old)) s (emptied s (bank_in self.old) (tag_with (option_map (with_parameters None) (job_in self.old)) (note_in self.old)))) (place_in self.old) (place_in self.new) result }
    {
        if let Some(why) = self.place.fault() {
            return Err(why);
        }
        self.place.known();
        let Some(job) = self.job else { unreachable!() };
        let next = BlobJob {
            parameters: None,
            ..job
        };
        let tag = self.next_tag(next);
        let result = self.place.give_up(&tag);
        self.place.known();
        self.job = Some(next);
        result
    }

    /// Puts a block of the job: erases its pages, programs them and sets its mark; no record is written. Where no fault is kept the job has
    /// parameters and lacks this block, and the octets are as many as it has.
    pub fn put_block(&mut self, i: u16, octets: &[u8]) -> Result<(), StoreFault>
        requires { place_fault (place_in self.old) ≡ None → CanPutBlock self.old i (length octets.now) }
        ensures answers { Answers (place_in self.new) result }
        ensures kept { KeepsStore self.old self.new result }
        ensures job { IfOk result (λ _. job_in self.new ≡ job_in self.old) }
        ensures flags { IfOk result (λ _. flags_in self.new ≡ slice_set (flags_in self.old) i true) }
        ensures note { IfOk result (λ _. note_in self.new ≡ note_in self.old) }
        ensures changed { (held : Slots) → Shows self.old held → IfOk result (λ _. IsChanged self.old self.new (Puts i octets.now) held) }
        ensures fields { IfOk result (λ _. place_record (place_in self.new) ≡ place_record (place_in self.old)) }
        ensures fresh { IfOk result (λ _. place_fresh (place_in self.new) ≡ place_fresh (place_in self.old)) }
        ensures filling { IfOk result (λ _. place_filling (place_in self.new) ≡ place_filling (place_in self.old)) }
        ensures held { IfOk result (λ _. place_held (place_in self.new) ≡ slice_set (place_held (place_in self.old)) i true) }
        ensures why { place_fault (place_in self.old) ≡ None → IfErr result (λ why. why ≡ StoreFault.Flash) }
        ensures cause { HasRisen F.seen (place_in self.old) (place_in self.new) result }
        ensures runs { (s : StoreState) → PlaceHolds F.seen (place_in self.old) s
            → PlaceGoes F.seen s (block_steps (piece_count (length octets.now) 4096) s (with_block s (bank_in self.old) i octets.now)) (place_in self.old) (place_in self.new) result }
    {
        if let Some(why) = self.place.fault() {
            return Err(why);
        }
        self.place.known();
        self.place.put_block(i, octets)
    }
}
