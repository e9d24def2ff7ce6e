ghost use Rattle.std.specs.Prelude.{◌≡◌, ◌≤◌, ◌↔◌, IsTrue};
ghost use Rattle.mu_model_wire.specs.Spelling.{Fits};
ghost use Rattle.mu_model_wire.specs.Blob.{blob_rows};
ghost use Rattle.mu_blobmsg.specs.View.{view};
ghost use Rattle.mu_blobmsg.specs.Ranges.{ListFits, ReportFits};

use crate::message::BlobMsg;
use arrayvec::ArrayVec;
use mu_model_wire::reports::lists;
use mu_report::{Report, encode_list};

/// Whether each field is in its range, those of some phases alone are there in these alone, and the message has at
/// most 380 octets.
pub fn in_range(msg: &BlobMsg) -> bool
    ensures { IsTrue result ↔ Fits blob_rows (view msg.now) }
{
    match msg {
        BlobMsg::TransferGet | BlobMsg::BlockGet | BlobMsg::BlobInformationGet => true,
        BlobMsg::TransferStart {
            mode,
            id,
            size,
            log,
            mtu,
        } => transfer_start(*mode, *id, *size, *log, *mtu),
        BlobMsg::TransferCancel { id } => transfer_cancel(*id),
        BlobMsg::TransferStatus {
            status,
            mode,
            phase,
            id,
            size,
            log,
            mtu,
            blocks,
        } => transfer_status(*status, *mode, *phase, *id, *size, *log, *mtu, *blocks),
        BlobMsg::BlockStart { block, chunk_size } => block_start(*block, *chunk_size),
        BlobMsg::BlobInformationStatus {
            min_log,
            max_log,
            max_chunks,
            max_chunk_size,
            max_size,
            mtu,
            push,
            pull,
        } => blob_information_status(
            *min_log,
            *max_log,
            *max_chunks,
            *max_chunk_size,
            *max_size,
            *mtu,
            *push,
            *pull,
        ),
        BlobMsg::ChunkTransfer { chunk, octets } => chunk_transfer(*chunk, octets),
        BlobMsg::BlockStatus {
            status,
            block,
            chunk_size,
            report,
        } => block_status(*status, *block, *chunk_size, report),
        BlobMsg::PartialBlockReport { missing } => partial_block_report(missing),
    }
}

fn transfer_start(mode: u8, id: u64, size: u32, log: u8, mtu: u16) -> bool
    ensures { IsTrue result ↔ Fits blob_rows (view (BlobMsg.TransferStart mode id size log mtu)) }
{
    mode >= 1 && mode <= 2 && size >= 1 && log >= 6 && log <= 32 && mtu >= 20
}

fn transfer_cancel(id: u64) -> bool
    ensures { IsTrue result ↔ Fits blob_rows (view (BlobMsg.TransferCancel id)) }
{
    true
}

fn transfer_status(
    status: u8,
    mode: u8,
    phase: u8,
    id: Option<u64>,
    size: Option<u32>,
    log: Option<u8>,
    mtu: Option<u16>,
    blocks: Option<&[u8]>,
) -> bool
    ensures { IsTrue result ↔ Fits blob_rows (view (BlobMsg.TransferStatus status mode phase id size log mtu blocks.entry)) }
{
    if status > 10 || mode > 2 || phase > 5 {
        return false;
    }
    match (id, size, log, mtu, blocks) {
        (None, None, None, None, None) => phase == 0,
        (Some(_), None, None, None, None) => phase == 1,
        (Some(_), Some(size), Some(log), Some(mtu), Some(blocks)) => {
            phase >= 2 && size >= 1 && log >= 6 && log <= 32 && mtu >= 20 && blocks.len() <= 361
        }
        _ => false,
    }
}

fn block_start(block: u16, chunk_size: u16) -> bool
    ensures { IsTrue result ↔ Fits blob_rows (view (BlobMsg.BlockStart block chunk_size)) }
{
    true
}

fn blob_information_status(
    min_log: u8,
    max_log: u8,
    max_chunks: u16,
    max_chunk_size: u16,
    max_size: u32,
    mtu: u16,
    push: u8,
    pull: u8,
) -> bool
    ensures { IsTrue result ↔ Fits blob_rows (view (BlobMsg.BlobInformationStatus min_log max_log max_chunks max_chunk_size max_size mtu push pull)) }
{
    min_log >= 6 && min_log <= 32 && max_log >= 6 && max_log <= 32 && push <= 1 && pull <= 1
}

fn chunk_transfer(chunk: u16, octets: &[u8]) -> bool
    ensures { IsTrue result ↔ Fits blob_rows (view (BlobMsg.ChunkTransfer chunk octets.entry)) }
{
    octets.len() >= 1 && octets.len() <= 377
}

fn block_status(status: u8, block: u16, chunk_size: u16, report: &Report) -> bool
    ensures { IsTrue result ↔ Fits blob_rows (view (BlobMsg.BlockStatus status block chunk_size report.now)) }
{
    status <= 10 && report_in_range(report)
}

fn report_in_range(report: &Report) -> bool
    ensures { IsTrue result ↔ ReportFits report.now }
{
    match report {
        Report::All | Report::Nothing => true,
        Report::Bits(bits) => bits.len() <= 374,
        Report::List(numbers) => list_has_at_most(numbers.as_slice(), 374),
    }
}

fn partial_block_report(missing: &ArrayVec<u16, 379>) -> bool
    ensures { IsTrue result ↔ Fits blob_rows (view (BlobMsg.PartialBlockReport missing.now)) }
{
    list_has_at_most(missing.as_slice(), 379)
}

// Whether the patterns of the numbers have so many octets or fewer.
fn list_has_at_most(numbers: &[u16], most: usize) -> bool
    requires { most ≤ 379 }
    ensures { IsTrue result ↔ ListFits numbers.now most }
{
    lists();
    match encode_list(numbers) {
        Some(octets) => octets.len() <= most,
        None => false,
    }
}
