// The octets of what a BLOB Transfer Server answers.
ghost use Rattle.std.specs.Prelude.{◌≡◌, ◌≤◌, ◌*◌, Some, None, length, List, Bool, [], ◌∷◌};
ghost use Rattle.mu_model_wire.specs.Fields.{pattern};
ghost use Rattle.mu_model_wire.specs.Names.{missing};
ghost use Rattle.mu_model_wire.specs.Patterns.{list_spelling};
ghost use Rattle.mu_model_wire.specs.Reports.{bit_field, shown_numbers};
ghost use Rattle.mu_model_wire.specs.Spelling.{EntriesFit, entries_spelling};
ghost use Rattle.mu_blobmsg.specs.Ranges.{ReportFits};
ghost use Rattle.mu_model_node.specs.BlobMessages.{BlobInformationStatus, TransferStatus, BlockStatus, PartialBlockReport};
ghost use Rattle.mu_model_node.specs.NodeMessages.{ByBlob, reply_octets};
ghost use Rattle.mu_blob_answers.specs.Messages.{blob_reply_of};
ghost use Rattle.mu_blob_answers.specs.Fits.{CanShow, ShowsWhatItMay, IsShort, BlobReplyFits};

use crate::answers::BlobAnswer;
use crate::messages::BlobReply;
use arrayvec::ArrayVec;
use mu_blobmsg::{BlobMsg, write};
use mu_codec::Payload;
use mu_model_node::Parameters;
use mu_report::{NumberSet, Report};

fn blob_information(capacity: u32) -> Payload
    ensures { result.items ≡ reply_octets (ByBlob (BlobInformationStatus capacity)) }
{
    write(&BlobMsg::BlobInformationStatus {
        min_log: 12,
        max_log: 14,
        max_chunks: 2048,
        max_chunk_size: 376,
        max_size: capacity,
        mtu: 380,
        push: 1,
        pull: 1,
    })
}

fn inactive(status: u8, mode: u8, phase: u8) -> Payload
    requires status { status ≤ 10 }
    requires mode { mode ≤ 2 }
    requires phase { phase ≡ 0 }
    ensures { (missing : List Bool) → result.items ≡ reply_octets (ByBlob (TransferStatus status mode phase None None missing)) }
{
    write(&BlobMsg::TransferStatus {
        status,
        mode,
        phase,
        id: None,
        size: None,
        log: None,
        mtu: None,
        blocks: None,
    })
}

fn waiting(status: u8, mode: u8, phase: u8, id: u64) -> Payload
    requires status { status ≤ 10 }
    requires mode { mode ≤ 2 }
    requires phase { phase ≡ 1 }
    ensures { (missing : List Bool) → result.items ≡ reply_octets (ByBlob (TransferStatus status mode phase (Some id) None missing)) }
{
    write(&BlobMsg::TransferStatus {
        status,
        mode,
        phase,
        id: Some(id),
        size: None,
        log: None,
        mtu: None,
        blocks: None,
    })
}

fn begun(status: u8, mode: u8, phase: u8, id: u64, parameters: Parameters, blocks: &[u8]) -> Payload
    requires status { status ≤ 10 }
    requires mode { mode ≤ 2 }
    requires least { 2 ≤ phase }
    requires most { phase ≤ 5 }
    requires shows { CanShow parameters }
    requires few { length blocks.now ≤ 32 }
    ensures { (missing : List Bool) → bit_field missing ≡ blocks.now → result.items ≡ reply_octets (ByBlob (TransferStatus status mode phase (Some id) (Some parameters) missing)) }
{
    write(&BlobMsg::TransferStatus {
        status,
        mode,
        phase,
        id: Some(id),
        size: Some(parameters.size),
        log: Some(parameters.log),
        mtu: Some(parameters.mtu),
        blocks: Some(blocks),
    })
}

#[tactic(auto, using(crate::proofs::Written::short_field))]
fn transfer(
    status: u8,
    mode: u8,
    phase: u8,
    id: Option<u64>,
    parameters: Option<Parameters>,
    missing: &NumberSet,
) -> Payload
    requires status { status ≤ 10 }
    requires mode { mode ≤ 2 }
    requires shows { ShowsWhatItMay phase id parameters }
    requires few { length missing.now ≤ 256 }
    ensures { result.items ≡ reply_octets (ByBlob (TransferStatus status mode phase id parameters missing.now)) }
{
    match id {
        None => inactive(status, mode, phase),
        Some(id) => match parameters {
            None => waiting(status, mode, phase, id),
            Some(parameters) => {
                let blocks = missing.bit_field();
                begun(status, mode, phase, id, parameters, blocks.as_slice())
            }
        },
    }
}

/// What the numbers of a list are on the wire.
#[tactic(auto, using(crate::proofs::Written::numbers_fit, crate::proofs::Written::numbers_short, crate::proofs::Written::numbers_spelled))]
fn numbers_fit(numbers: &[u16])
    ensures fit { EntriesFit (pattern missing ∷ []) (shown_numbers missing numbers.now) }
    ensures short { length (entries_spelling (pattern missing ∷ []) (shown_numbers missing numbers.now)) ≤ 3 * length numbers.now }
    ensures spelled { entries_spelling (pattern missing ∷ []) (shown_numbers missing numbers.now) ≡ list_spelling numbers.now }
{}

/// What a report is on the wire.
fn report_fits(report: &Report)
    requires { IsShort report.now }
    ensures { ReportFits report.now }
{
    match report {
        Report::List(numbers) => numbers_fit(numbers.as_slice()),
        _ => (),
    }
}

#[tactic(auto, using(crate::proofs::Written::block_fits))]
fn block(status: u8, block: u16, chunk_size: u16, report: Report) -> Payload
    requires status { status ≤ 10 }
    requires short { IsShort report }
    ensures { result.items ≡ reply_octets (ByBlob (BlockStatus status block chunk_size report)) }
{
    report_fits(&report);
    write(&BlobMsg::BlockStatus {
        status,
        block,
        chunk_size,
        report,
    })
}

#[tactic(auto, using(crate::proofs::Written::partial_fits))]
fn partial_of(missing: ArrayVec<u16, 379>) -> Payload
    requires { length missing.items ≤ 16 }
    ensures { result.items ≡ reply_octets (ByBlob (PartialBlockReport missing.items)) }
{
    numbers_fit(missing.as_slice());
    write(&BlobMsg::PartialBlockReport { missing })
}

fn partial_report(chunks: &[u16]) -> Payload
    requires { length chunks.now ≤ 16 }
    ensures { result.items ≡ reply_octets (ByBlob (PartialBlockReport chunks.now)) }
{
    let mut missing = ArrayVec::new();
    if missing.try_extend_from_slice(chunks).is_err() {
        prove!(false);
    }
    partial_of(missing)
}

// The octets of a reply whose fields are in their ranges.
fn blob_octets(reply: BlobReply) -> Payload
    requires { BlobReplyFits reply }
    ensures { result.items ≡ reply_octets (ByBlob (blob_reply_of reply)) }
{
    match reply {
        BlobReply::BlobInformationStatus { capacity } => blob_information(capacity),
        BlobReply::TransferStatus {
            status,
            mode,
            phase,
            id,
            parameters,
            missing,
        } => transfer(status, mode, phase, id, parameters, &missing),
        BlobReply::BlockStatus {
            status,
            block: number,
            chunk_size,
            report,
        } => block(status, number, chunk_size, report),
        BlobReply::PartialBlockReport { chunks } => partial_report(chunks.as_slice()),
    }
}

/// The octets of a reply.
pub fn octets_of(answer: BlobAnswer) -> Payload
    ensures { result.items ≡ reply_octets (ByBlob answer) }
{
    blob_octets(answer.into_reply())
}
