// What a packet from a receiver makes of a client: first of the receiver's row, then, where it hasn't answered yet, by the step.
ghost use Rattle.std.specs.Prelude.{◌≡◌, ◌<◌, ◌==◌, ℕ, List, true};
ghost use Rattle.mu_model_image.specs.declared.Meta.{Meta};
ghost use Rattle.mu_model_image.specs.Meta.{firmware_id, own_company};
ghost use Rattle.mu_model_client.specs.Rows.{row_after};
ghost use Rattle.mu_model_client.specs.Answers.{FromUpdate};
ghost use Rattle.mu_model_client.specs.Client.{Get, Pull, chunk_total, at_moment};
ghost use Rattle.mu_model_client.specs.Told.{is_present, most_barren, on_check, on_start, on_verify, on_apply, on_cancel, step_told, row_counted, row_told, place_told, told};
ghost use Rattle.mu_receivers.specs.Receivers.{receiver_of};
ghost use Rattle.mu_receivers.specs.Slots.{Each, IsFew};
ghost use Rattle.mu_receivers.specs.declared.slot.Slot.{Slot};
ghost use Rattle.mu_told.specs.Told.{IsTold, IsSendable, StepFits, WantsOf};
ghost use Rattle.mu_rounds.specs.Rounds.{client_of, HasShape};
ghost use Rattle.mu_rounds.specs.Told.{update_reply_of, answer_of, HeardShort, OwnIs, Listens, ListensFor, CanAnswer, AllCanAnswer, told_at};

use crate::rounds::Rounds;
use mu_image::{Fwid, fwid_of};
use mu_model_client::{Part, Place, Purpose, Sending, Step};
use mu_receivers::Slot;
use mu_told::{
    BlobAnswer, Shown, fold_information, fold_status, on_apply, on_blob_answer, on_cancel,
    on_confirm, on_metadata_status, on_start, on_verify,
};

/// What an update message tells a client. The octets that it lends lie in the message.
#[derive(Clone, Copy)]
pub enum UpdateAnswer<'a> {
    /// Firmware Update Information Status from the image with this index on, with the Firmware ID of its first entry, if it has
    /// one.
    Information {
        first: u8,
        shown: Option<&'a [u8]>,
    },
    /// Firmware Update Firmware Metadata Status.
    Metadata {
        status: u8,
        index: u8,
    },
    /// Firmware Update Status.
    Status {
        status: u8,
        phase: u8,
        job: Option<Shown>,
    },
}

/// What a packet tells a client.
#[derive(Clone, Copy)]
pub enum Heard<'a> {
    Update(UpdateAnswer<'a>),
    Blob(BlobAnswer<'a>),
}

/// What of a client a packet meets.
#[derive(Drop)]
pub(crate) struct Listener {
    sending: Sending,
    purpose: Purpose,
    place: Place,
    /// The Firmware ID of the offered image; none for a BLOB alone.
    own: Fwid,
}

// The row after an update message.
fn fold_row(slot: &mut Slot, sending: &Sending, own: &[u8], answer: &UpdateAnswer)
    ensures { (offered : Meta) (count : ℕ) (more : List (List ℕ)) → own.now ≡ firmware_id own_company offered → IsTold (λ r. record r { row = row_after sending.now.id offered r.row (FromUpdate (update_reply_of answer.now count more)) }) slot.old slot.new }
{
    match answer {
        UpdateAnswer::Information { first, shown } => {
            fold_information(slot, sending, own, *first, *shown)
        }
        UpdateAnswer::Metadata { .. } => {}
        UpdateAnswer::Status { status, phase, job } => {
            fold_status(slot, sending, *status, *phase, *job)
        }
    }
}

// The row of an update after an update message; a BLOB alone has none.
fn fold_offered(slot: &mut Slot, listener: &Listener, answer: &UpdateAnswer)
    requires { Listens listener.now }
    ensures { (count : ℕ) (more : List (List ℕ)) → IsTold (λ r. row_told listener.now.sending (FromUpdate (update_reply_of answer.now count more)) r listener.now.purpose) slot.old slot.new }
{
    match &listener.purpose {
        Purpose::Blob => {}
        Purpose::Update(_, _) => {
            fold_row(slot, &listener.sending, listener.own.as_slice(), answer)
        }
    }
}

fn fold_heard(slot: &mut Slot, listener: &Listener, heard: &Heard)
    requires { Listens listener.now }
    ensures { (count : ℕ) (more : List (List ℕ)) → IsTold (λ r. row_told listener.now.sending (answer_of heard.now count more) r listener.now.purpose) slot.old slot.new }
{
    match heard {
        Heard::Update(answer) => fold_offered(slot, listener, answer),
        Heard::Blob(_) => {}
    }
}

// Whether the transfer is present: not once it is being canceled.
fn is_present(place: Place) -> bool
    ensures { result ≡ is_present place }
{
    match place {
        Place::Before(Step::Cancel) | Place::At(Step::Cancel) | Place::Ended(Part::Cancelling) => {
            false
        }
        _ => true,
    }
}

fn count_row(slot: &mut Slot, listener: &Listener, heard: &Heard)
    requires { Listens listener.now }
    ensures { (count : ℕ) (more : List (List ℕ)) → IsTold (λ r. row_counted listener.now.sending (answer_of heard.now count more) r listener.now.purpose (is_present listener.now.place)) slot.old slot.new }
{
    if is_present(listener.place) {
        fold_heard(slot, listener, heard);
    }
}

fn on_check_answer(slot: &mut Slot, answer: &UpdateAnswer)
    ensures { (count : ℕ) (more : List (List ℕ)) → IsTold (λ r. on_check r (update_reply_of answer.now count more)) slot.old slot.new }
{
    if let UpdateAnswer::Metadata { status, index } = answer {
        on_metadata_status(slot, *status, *index);
    }
}

fn on_start_answer(slot: &mut Slot, sending: &Sending, answer: &UpdateAnswer)
    ensures { (count : ℕ) (more : List (List ℕ)) → IsTold (λ r. on_start sending.now r (update_reply_of answer.now count more)) slot.old slot.new }
{
    if let UpdateAnswer::Status { status, phase, job } = answer {
        on_start(slot, sending, *status, *phase, *job);
    }
}

fn on_verify_answer(slot: &mut Slot, sending: &Sending, answer: &UpdateAnswer)
    ensures { (count : ℕ) (more : List (List ℕ)) → IsTold (λ r. on_verify sending.now r (update_reply_of answer.now count more)) slot.old slot.new }
{
    if let UpdateAnswer::Status { status, phase, job } = answer {
        on_verify(slot, sending, *status, *phase, *job);
    }
}

fn on_apply_answer(slot: &mut Slot, sending: &Sending, answer: &UpdateAnswer)
    ensures { (count : ℕ) (more : List (List ℕ)) → IsTold (λ r. on_apply sending.now r (update_reply_of answer.now count more)) slot.old slot.new }
{
    if let UpdateAnswer::Status { status, phase, job } = answer {
        on_apply(slot, sending, *status, *phase, *job);
    }
}

fn on_cancel_answer(slot: &mut Slot, sending: &Sending, answer: &UpdateAnswer)
    ensures { (count : ℕ) (more : List (List ℕ)) → IsTold (λ r. on_cancel sending.now r (update_reply_of answer.now count more)) slot.old slot.new }
{
    if let UpdateAnswer::Status { status, phase, job } = answer {
        on_cancel(slot, sending, *status, *phase, *job);
    }
}

fn on_update_answer(slot: &mut Slot, sending: &Sending, step: Step, answer: &UpdateAnswer)
    ensures { (count : ℕ) (more : List (List ℕ)) → IsTold (λ r. step_told sending.now (FromUpdate (update_reply_of answer.now count more)) r step) slot.old slot.new }
{
    match step {
        Step::Check => on_check_answer(slot, answer),
        Step::Start => on_start_answer(slot, sending, answer),
        Step::Verify => on_verify_answer(slot, sending, answer),
        Step::Apply => on_apply_answer(slot, sending, answer),
        Step::Confirm => on_confirm(slot),
        Step::Cancel => on_cancel_answer(slot, sending, answer),
        _ => {}
    }
}

// What a receiver that hasn't answered the step answers.
fn on_answer(slot: &mut Slot, sending: &Sending, step: Step, heard: &Heard)
    requires range { IsSendable sending.now }
    requires fits { StepFits sending.now step }
    requires short { HeardShort heard.now }
    requires few { (b : ℕ) → step ≡ Get b → slot.old.barren < most_barren }
    requires wanted { (b : ℕ) → step ≡ Pull b → WantsOf (chunk_total sending.now b) (receiver_of slot.old) }
    ensures { (count : ℕ) (more : List (List ℕ)) → IsTold (λ r. step_told sending.now (answer_of heard.now count more) r step) slot.old slot.new }
{
    match heard {
        Heard::Update(answer) => on_update_answer(slot, sending, step, answer),
        Heard::Blob(answer) => on_blob_answer(slot, sending, step, answer),
    }
}

fn answer_at(slot: &mut Slot, listener: &Listener, heard: &Heard)
    requires listens { Listens listener.now }
    requires can { CanAnswer listener.now.sending listener.now.place slot.old }
    requires short { HeardShort heard.now }
    ensures { (count : ℕ) (more : List (List ℕ)) → IsTold (λ r. place_told listener.now.sending (answer_of heard.now count more) r listener.now.place) slot.old slot.new }
{
    if let Place::At(step) = listener.place {
        if slot.pending {
            on_answer(slot, &listener.sending, step, heard);
        }
    }
}

// What a packet of the receiver makes of it.
fn hear_own(slot: &mut Slot, listener: &Listener, heard: &Heard)
    requires listens { Listens listener.now }
    requires can { CanAnswer listener.now.sending listener.now.place slot.old }
    requires short { HeardShort heard.now }
    ensures { (count : ℕ) (more : List (List ℕ)) → IsTold (λ r. told_at listener.now.sending listener.now.purpose listener.now.place (answer_of heard.now count more) r true) slot.old slot.new }
{
    count_row(slot, listener, heard);
    answer_at(slot, listener, heard);
}

// What a packet from this address makes of the receiver.
fn hear(slot: &mut Slot, listener: &Listener, from: u16, heard: &Heard)
    requires listens { Listens listener.now }
    requires can { CanAnswer listener.now.sending listener.now.place slot.old }
    requires short { HeardShort heard.now }
    ensures { (count : ℕ) (more : List (List ℕ)) → IsTold (λ r. told_at listener.now.sending listener.now.purpose listener.now.place (answer_of heard.now count more) r (r.row.address == from)) slot.old slot.new }
{
    if slot.address == from {
        hear_own(slot, listener, heard);
    }
}

// What a packet from this address makes of the receivers.
fn hear_all(slots: &mut [Slot], listener: &Listener, from: u16, heard: &Heard)
    requires listens { Listens listener.now }
    requires can { AllCanAnswer listener.now.sending listener.now.place slots.old }
    requires short { HeardShort heard.now }
    ensures { (count : ℕ) (more : List (List ℕ)) → Each (IsTold (λ r. told_at listener.now.sending listener.now.purpose listener.now.place (answer_of heard.now count more) r (r.row.address == from))) slots.old slots.new }
{
    for i in 0..slots.len() {
        let slot = &mut slots[i];
        hear(slot, listener, from, heard);
    }
}

fn own_id(purpose: &Purpose) -> Fwid
    ensures { OwnIs purpose.now result.items }
{
    match purpose {
        Purpose::Blob => Fwid::new(),
        Purpose::Update(meta, _) => fwid_of(0xFFFF, meta),
    }
}

impl Rounds {
    fn listener(&self) -> Listener
        ensures { ListensFor self.now result }
    {
        Listener {
            sending: self.sending,
            purpose: self.purpose,
            place: self.place,
            own: own_id(&self.purpose),
        }
    }

    /// A moment is handed in, in milliseconds.
    pub fn pass_to(&mut self, now: u64)
        requires { HasShape self.old }
        ensures next { client_of self.new ≡ at_moment (client_of self.old) now }
        ensures sending { self.new.sending ≡ self.old.sending }
        ensures shape { HasShape self.new }
    {
        self.moment = self.moment.max(now);
    }

    /// A packet from this address at this moment, in milliseconds.
    pub fn on_heard(&mut self, from: u16, heard: &Heard, now: u64)
        requires shape { HasShape self.old }
        requires short { HeardShort heard.now }
        ensures next { (count : ℕ) (more : List (List ℕ)) → client_of self.new ≡ told (client_of self.old) from (answer_of heard.now count more) now }
        ensures sending { self.new.sending ≡ self.old.sending }
        ensures shape { HasShape self.new }
    {
        let listener = self.listener();
        hear_all(&mut self.slots, &listener, from, heard);
        self.moment = self.moment.max(now);
    }
}
