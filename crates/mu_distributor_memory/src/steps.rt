// What steps make of it.
ghost use Rattle.std.specs.Prelude.{◌≡◌, ◌<◌, ◌++◌, ◌∷◌, [], ℕ, Ok, Err, Option, List, false, length};
ghost use Rattle.mu_model_distributor.specs.DistState.{StoredImage, DistState};
ghost use Rattle.mu_model_distributor.specs.Firmware.{with_images};
ghost use Rattle.mu_distmsg.specs.declared.message.ReceiverRow.{ReceiverRow};
ghost use Rattle.mu_distributor_rows.specs.declared.looks.UploadLook.{UploadLook};
ghost use Rattle.mu_distributor_rows.specs.Messages.{upload_start_of};
ghost use Rattle.mu_distributor_answers.specs.Fits.{CanStep};
ghost use Rattle.mu_distributor_answers.specs.Steps.{stepped, is_of_distribution};
ghost use Rattle.mu_distributor_memory.specs.Shows.{rows_in, upload_in, banks_in, seen_in, IsHeadOf, IsBeside};
ghost use Rattle.mu_distributor_memory.specs.Steps.{phase_after, upload_fields, fields_after, SameBesideUpload, SameImages};

use crate::memory::Memory;
use mu_distributor_answers::{DistStep, delete_images};
use mu_distributor_note::UploadPhase;
use mu_distributor_rows::{UploadStart, UploadStep};
use mu_image::Meta;

impl Memory {
    // The upload is in this phase, in the record and in the run.
    fn set_upload(&mut self, phase: UploadPhase)
        ensures fields { upload_fields self.new ≡ record (upload_fields self.old) { upload = phase; lags = false } }
        ensures same { SameBesideUpload self.old self.new }
        ensures images { SameImages self.old self.new }
    {
        self.head.upload = phase;
        self.lags = false;
    }

    // The upload's fields become the request's.
    fn set_fields(&mut self, ttl: u8, meta: Meta)
        ensures fields { upload_fields self.new ≡ record (upload_fields self.old) { ttl = ttl; meta = meta } }
        ensures same { SameBesideUpload self.old self.new }
        ensures images { SameImages self.old self.new }
    {
        self.head.upload_ttl = ttl;
        self.head.upload_meta = meta;
    }

    fn take_upload<'a>(&mut self, asked: UploadStart<'a>, step: UploadStep)
        ensures fields { upload_fields self.new ≡ fields_after (upload_start_of asked.entry) step (upload_fields self.old) }
        ensures same { SameBesideUpload self.old self.new }
        ensures images { SameImages self.old self.new }
    {
        match step {
            UploadStep::Keep | UploadStep::Refuse(_) => {}
            UploadStep::Resume => self.set_upload(UploadPhase::TransferActive),
            UploadStep::Store(meta) => {
                self.set_upload(UploadPhase::TransferSuccess);
                self.set_fields(asked.ttl, meta);
            }
            UploadStep::Take(meta, _) => {
                self.set_upload(UploadPhase::TransferActive);
                self.set_fields(asked.ttl, meta);
            }
        }
    }

    /// Does a step that isn't one of the distribution itself.
    pub fn take<'a>(&mut self, step: DistStep<'a>)
        ensures head { (address : ℕ) (s t : DistState) (capacity : ℕ) (job : Option UploadLook) (rows : List ReceiverRow) → IsHeadOf self.old s → IsBeside capacity job s
            → CanStep (seen_in self.old capacity job) step.entry → is_of_distribution step.entry ≡ false → stepped address s rows step.entry ≡ Ok t → IsHeadOf self.new t }
        ensures told { (address : ℕ) (s : DistState) (rows : List ReceiverRow) (status : ℕ) → is_of_distribution step.entry ≡ false → stepped address s rows step.entry ≡ Err status → self.new ≡ self.old }
        ensures rows { rows_in self.new ≡ rows_in self.old }
        ensures upload { upload_in self.new ≡ phase_after step.entry (upload_in self.old) }
    {
        match step {
            DistStep::Tell(_) | DistStep::Receivers | DistStep::Distribution(_) => {}
            DistStep::Upload(asked, step) => self.take_upload(asked, step),
            DistStep::CancelUpload => self.set_upload(UploadPhase::Idle),
            DistStep::DeleteImages(fwid) => {
                delete_images(&mut self.head.banks, &mut self.metas, fwid)
            }
            DistStep::DeleteAllImages => self.head.banks.clear(),
        }
    }

    /// Adds an image behind the others, of which there are at most three.
    pub fn store(&mut self, bank: u8, meta: Meta)
        requires { length (banks_in self.old) < 4 }
        ensures head { (s : DistState) (x : StoredImage) → IsHeadOf self.old s → x.bank ≡ bank → x.image.meta ≡ meta
            → IsHeadOf self.new (with_images s (s.durable.images ++ x ∷ [])) }
        ensures rows { rows_in self.new ≡ rows_in self.old }
        ensures upload { upload_in self.new ≡ upload_in self.old }
    {
        self.metas[self.head.banks.len()] = meta;
        self.head.banks.push(bank);
    }
}
