// What a BLOB message tells.
ghost use Rattle.std.specs.Prelude.{ℕ, ◌≡◌, ◌≤◌, ◌<◌, true, length};
ghost use Rattle.mu_model_client.specs.Client.{Step, Get, Pull, block_total, chunk_total};
ghost use Rattle.mu_model_client.specs.Told.{step_told, on_information, on_transfer, on_block, on_pull, on_get, most_barren};
ghost use Rattle.mu_model_client.specs.Answers.{FromBlob};
ghost use Rattle.mu_receivers.specs.Receivers.{receiver_of};
ghost use Rattle.mu_told.specs.Told.{IsTold, IsSendable, StepFits, WantsOf};
ghost use Rattle.mu_told.specs.Answers.{blob_answer_of, IsShort};

use crate::blob::{on_block, on_get, on_transfer};
use crate::information::{Limits, on_limits};
use crate::pull::{on_part, on_pull_status};
use crate::update::on_confirm;
use mu_model_client::{Sending, Step};
use mu_model_node::Parameters;
use mu_receivers::Slot;
use mu_report::Report;

/// What a BLOB message tells a client. The numbers and the octets that it lends lie in the message.
#[derive(Clone, Copy)]
pub enum BlobAnswer<'a> {
    /// BLOB Information Status.
    Information(Limits),
    /// BLOB Transfer Status.
    Transfer {
        status: u8,
        phase: u8,
        id: Option<u64>,
        parameters: Option<Parameters>,
        /// The bit field of the blocks that are missing, at most 374 octets.
        field: &'a [u8],
    },
    /// BLOB Block Status.
    Block {
        status: u8,
        block: u16,
        chunk_size: u16,
        report: &'a Report,
    },
    /// BLOB Partial Block Report.
    Part(&'a [u16]),
}

fn on_information(slot: &mut Slot, sending: &Sending, answer: &BlobAnswer)
    requires { IsSendable sending.now }
    ensures { IsTold (λ r. on_information sending.now r (blob_answer_of answer.now)) slot.old slot.new }
{
    if let BlobAnswer::Information(limits) = answer {
        on_limits(slot, sending, limits);
    }
}

fn on_transfer_answer(slot: &mut Slot, sending: &Sending, answer: &BlobAnswer)
    requires range { IsSendable sending.now }
    requires short { IsShort answer.now }
    ensures { IsTold (λ r. on_transfer sending.now r (blob_answer_of answer.now)) slot.old slot.new }
{
    if let BlobAnswer::Transfer {
        status,
        phase,
        id,
        parameters,
        field,
    } = answer
    {
        on_transfer(slot, sending, *status, *phase, *id, *parameters, field);
    }
}

fn on_block_answer(slot: &mut Slot, sending: &Sending, b: u16, answer: &BlobAnswer)
    requires range { IsSendable sending.now }
    requires within { b < block_total sending.now }
    ensures { IsTold (λ r. on_block sending.now b r (blob_answer_of answer.now)) slot.old slot.new }
{
    if let BlobAnswer::Block {
        status,
        block,
        chunk_size,
        report,
    } = answer
    {
        on_block(slot, sending, b, *status, *block, *chunk_size, report);
    }
}

fn on_get_answer(slot: &mut Slot, sending: &Sending, b: u16, answer: &BlobAnswer)
    requires range { IsSendable sending.now }
    requires within { b < block_total sending.now }
    requires few { slot.old.barren < most_barren }
    ensures { IsTold (λ r. on_get sending.now b r (blob_answer_of answer.now)) slot.old slot.new }
{
    if let BlobAnswer::Block {
        status,
        block,
        chunk_size,
        report,
    } = answer
    {
        on_get(slot, sending, b, *status, *block, *chunk_size, report);
    }
}

fn on_pull_answer(slot: &mut Slot, sending: &Sending, b: u16, answer: &BlobAnswer)
    requires range { IsSendable sending.now }
    requires within { b < block_total sending.now }
    requires wanted { WantsOf (chunk_total sending.now b) (receiver_of slot.old) }
    ensures { IsTold (λ r. on_pull sending.now b r (blob_answer_of answer.now)) slot.old slot.new }
{
    match answer {
        BlobAnswer::Block {
            status,
            block,
            chunk_size,
            report,
        } => on_pull_status(slot, sending, b, *status, *block, *chunk_size, report),
        BlobAnswer::Part(chunks) => on_part(slot, sending, b, chunks),
        _ => {}
    }
}

/// What a BLOB message makes of a receiver that hasn't answered this step yet.
pub fn on_blob_answer(slot: &mut Slot, sending: &Sending, step: Step, answer: &BlobAnswer)
    requires range { IsSendable sending.now }
    requires fits { StepFits sending.now step }
    requires short { IsShort answer.now }
    requires few { (b : ℕ) → step ≡ Get b → slot.old.barren < most_barren }
    requires wanted { (b : ℕ) → step ≡ Pull b → WantsOf (chunk_total sending.now b) (receiver_of slot.old) }
    ensures { IsTold (λ r. step_told sending.now (FromBlob (blob_answer_of answer.now)) r step) slot.old slot.new }
{
    match step {
        Step::Information => on_information(slot, sending, answer),
        Step::Transfer => on_transfer_answer(slot, sending, answer),
        Step::Block(b) => on_block_answer(slot, sending, b, answer),
        Step::Pull(b) => on_pull_answer(slot, sending, b, answer),
        Step::Get(b) => on_get_answer(slot, sending, b, answer),
        Step::Confirm => on_confirm(slot),
        _ => {}
    }
}
