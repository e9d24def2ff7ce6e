// Replies whose fields are in the ranges of the grammar.
ghost use Rattle.std.specs.Prelude.{ℕ, ◌≡◌, ◌≤◌, [], None, Some, length};
ghost use Rattle.mu_model_node.specs.Slots.{Slots, missing as missing_of};
ghost use Rattle.mu_model_node.specs.BlobMessages.{BlobInformationStatus, TransferStatus, BlockStatus, PartialBlockReport};
ghost use Rattle.mu_model_node.specs.BlobTable.{mode_of, transfer_status};
ghost use Rattle.mu_blob_rows.specs.Looks.{phase_with};
ghost use Rattle.mu_blob_rows.specs.Rows.{report_by};
ghost use Rattle.mu_blob_answers.specs.Messages.{blob_reply_of};
ghost use Rattle.mu_blob_answers.specs.Fits.{BlobReplyFits, CanShow, HasShown, IsShort, ShowsWhatItMay, IsShown, CanReport};

use crate::messages::BlobReply;
use arrayvec::ArrayVec;
use mu_blob_rows::{BlobPhase, BlockTold, ReportTold, TransferLook};
use mu_model_node::Parameters;
use mu_report::{NumberSet, Report, report_of};
use std::marker::Model;

/// A reply of a BLOB Transfer Server, with each field in its range.
#[derive(Drop)]
pub struct BlobAnswer {
    reply: BlobReply,
}

impl Model for BlobAnswer {
    ghost use Rattle.mu_model_node.specs.BlobMessages.{BlobReply};
    ghost use Rattle.mu_blob_answers.specs.Messages.{blob_reply_of};
    ghost use Rattle.mu_blob_answers.specs.Fits.{BlobReplyFits};

    ghost Value = { BlobReply };

    ghost view = { λ a. blob_reply_of a.reply };

    ghost invariant = { λ a. BlobReplyFits a.reply };
}

impl BlobAnswer {
    /// A reply whose fields are in their ranges.
    pub fn new(reply: BlobReply) -> BlobAnswer
        requires { BlobReplyFits reply }
        ensures { result ≡ blob_reply_of reply }
    {
        BlobAnswer { reply }
    }

    /// The reply.
    pub fn into_reply(self) -> BlobReply
        ensures is { blob_reply_of result ≡ self }
        ensures fits { BlobReplyFits result }
    {
        self.reply
    }
}

/// The BLOB Information Status of a server with such banks.
pub fn information_reply(capacity: u32) -> BlobAnswer
    ensures { result ≡ BlobInformationStatus capacity }
{
    BlobAnswer::new(BlobReply::BlobInformationStatus { capacity })
}

/// The Partial Block Report that asks for these chunks.
pub fn partial_reply(chunks: ArrayVec<u16, 16>) -> BlobAnswer
    ensures { result ≡ PartialBlockReport chunks.items }
{
    BlobAnswer::new(BlobReply::PartialBlockReport { chunks })
}

fn bare_status(status: u8, phase: u8, id: Option<u64>) -> BlobAnswer
    requires known { status ≤ 7 }
    requires shows { ShowsWhatItMay phase id None }
    ensures { result ≡ TransferStatus status 0 phase id None [] }
{
    BlobAnswer::new(BlobReply::TransferStatus {
        status,
        mode: 0,
        phase,
        id,
        parameters: None,
        missing: NumberSet::new(0),
    })
}

fn full_status(
    status: u8,
    phase: u8,
    transfer: TransferLook,
    parameters: Parameters,
    missing: NumberSet,
) -> BlobAnswer
    requires known { status ≤ 7 }
    requires least { 2 ≤ phase }
    requires most { phase ≤ 5 }
    requires shows { CanShow parameters }
    requires few { length missing ≤ 256 }
    ensures { result ≡ TransferStatus status parameters.mode phase (Some transfer.id) (Some parameters) missing }
{
    BlobAnswer::new(BlobReply::TransferStatus {
        status,
        mode: parameters.mode,
        phase,
        id: Some(transfer.id),
        parameters: Some(parameters),
        missing,
    })
}

fn whole_status(status: u8, transfer: TransferLook, missing: NumberSet) -> BlobAnswer
    requires known { status ≤ 7 }
    requires shows { HasShown transfer.parameters }
    requires few { length missing ≤ 256 }
    ensures { result ≡ TransferStatus status (mode_of transfer.parameters) 4 (Some transfer.id) transfer.parameters missing }
{
    match transfer.parameters {
        None => bare_status(status, 0, None),
        Some(parameters) => full_status(status, 4, transfer, parameters, missing),
    }
}

/// The Transfer Status of a phase, with the set of the blocks that are missing. The parameters that it shows are in the ranges of
/// the grammar, and there are at most 256 blocks.
pub fn transfer_reply(status: u8, phase: BlobPhase, missing: NumberSet) -> BlobAnswer
    requires known { status ≤ 7 }
    requires shown { IsShown phase }
    requires few { length missing ≤ 256 }
    ensures { (held chunks : Slots) → missing_of held ≡ missing → result ≡ transfer_status status (phase_with phase held chunks) }
{
    match phase {
        BlobPhase::Inactive => bare_status(status, 0, None),
        BlobPhase::WaitingForStart(transfer) => bare_status(status, 1, Some(transfer.id)),
        BlobPhase::NextBlock(transfer, parameters) => {
            full_status(status, 2, transfer, parameters, missing)
        }
        BlobPhase::NextChunk(transfer, parameters, _) => {
            full_status(status, 3, transfer, parameters, missing)
        }
        BlobPhase::Complete(transfer) => whole_status(status, transfer, missing),
        BlobPhase::Suspended(transfer, parameters) => {
            full_status(status, 5, transfer, parameters, missing)
        }
    }
}

#[tactic(auto, using(crate::proofs::Short::report_is_short))]
fn report_told(told: ReportTold, missing: &NumberSet) -> Report
    requires { CanReport told missing.now }
    ensures report { result ≡ report_by told missing.now }
    ensures short { IsShort result }
{
    let _bound = missing.bound();
    match told {
        ReportTold::All => Report::All,
        ReportTold::Nothing => Report::Nothing,
        ReportTold::Missing => report_of(missing),
    }
}

/// The Block Status that a row tells, with the set of the chunks that are missing of the block that comes.
pub fn block_reply(told: BlockTold, missing: &NumberSet) -> BlobAnswer
    requires known { told.status ≤ 7 }
    requires report { CanReport told.report missing.now }
    ensures { result ≡ BlockStatus told.status told.block told.chunk_size (report_by told.report missing.now) }
{
    BlobAnswer::new(BlobReply::BlockStatus {
        status: told.status,
        block: told.block,
        chunk_size: told.chunk_size,
        report: report_told(told.report, missing),
    })
}
