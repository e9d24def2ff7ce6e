ghost use Rattle.std.specs.Prelude.{◌≡◌, ◌≤◌, ◌+◌, ◌++◌, [], ◌∷◌, length, Ok};
ghost use Rattle.arrayvec.specs.ArrayVec.{array_vec_len};
ghost use Rattle.mu_model_wire.specs.Reading.{message_at};
ghost use Rattle.mu_model_wire.specs.Patterns.{list_spelling};
ghost use Rattle.mu_model_wire.specs.Fields.{pattern};
ghost use Rattle.mu_model_wire.specs.Names.{missing};
ghost use Rattle.mu_model_wire.specs.Reports.{shown_numbers};
ghost use Rattle.mu_model_wire.specs.Spelling.{Fits, spelling, entries_spelling};
ghost use Rattle.mu_model_wire.specs.Blob.{blob_rows};
ghost use Rattle.mu_model_wire.specs.ReportFields.{format_of};
ghost use Rattle.mu_blobmsg.specs.View.{view};

use crate::message::BlobMsg;
use mu_codec::{Payload, put_octets, put_u8, put_u16, put_u32, put_u64};
use mu_model_wire::laws::canonical_is_read;
use mu_model_wire::reports::lists;
use mu_report::{Report, encode_list};

/// The canonical octets of a message in range: its unused bits are 0.
pub fn write(msg: &BlobMsg) -> Payload
    requires { Fits blob_rows (view msg.now) }
    ensures spelled { result.items ≡ spelling blob_rows (view msg.now) }
    // Reading them gives the message back.
    ensures again { message_at blob_rows result.items ≡ Ok (view msg.now) }
{
    canonical_is_read();
    spelled(msg)
}

fn spelled(msg: &BlobMsg) -> Payload
    requires { Fits blob_rows (view msg.now) }
    ensures { result.items ≡ spelling blob_rows (view msg.now) }
{
    match msg {
        BlobMsg::TransferGet => opcode_alone(0x00),
        BlobMsg::TransferStart {
            mode,
            id,
            size,
            log,
            mtu,
        } => transfer_start(*mode, *id, *size, *log, *mtu),
        BlobMsg::TransferCancel { id } => transfer_cancel(*id),
        BlobMsg::TransferStatus {
            status,
            mode,
            phase,
            id,
            size,
            log,
            mtu,
            blocks,
        } => transfer_status(*status, *mode, *phase, *id, *size, *log, *mtu, *blocks),
        BlobMsg::BlockStart { block, chunk_size } => block_start(*block, *chunk_size),
        BlobMsg::BlockGet => opcode_alone(0x05),
        BlobMsg::BlobInformationGet => opcode_alone(0x06),
        BlobMsg::BlobInformationStatus {
            min_log,
            max_log,
            max_chunks,
            max_chunk_size,
            max_size,
            mtu,
            push,
            pull,
        } => blob_information_status(
            *min_log,
            *max_log,
            *max_chunks,
            *max_chunk_size,
            *max_size,
            *mtu,
            *push,
            *pull,
        ),
        BlobMsg::ChunkTransfer { chunk, octets } => chunk_transfer(*chunk, octets),
        BlobMsg::BlockStatus {
            status,
            block,
            chunk_size,
            report,
        } => block_status(*status, *block, *chunk_size, report),
        BlobMsg::PartialBlockReport { missing } => partial_block_report(missing.as_slice()),
    }
}

fn opcode_alone(second: u8) -> Payload
    ensures { result.items ≡ 0x83 ∷ second ∷ [] }
{
    let mut out = Payload::new();
    put_octets(&mut out, &[0x83, second]);
    out
}

fn transfer_start(mode: u8, id: u64, size: u32, log: u8, mtu: u16) -> Payload
    requires { mode ≤ 2 }
    ensures { result.items ≡ spelling blob_rows (view (BlobMsg.TransferStart mode id size log mtu)) }
{
    let mut out = Payload::new();
    put_octets(&mut out, &[0x83, 0x01, mode * 64]);
    put_u64(&mut out, id);
    put_u32(&mut out, size);
    put_u8(&mut out, log);
    put_u16(&mut out, mtu);
    out
}

fn transfer_cancel(id: u64) -> Payload
    ensures { result.items ≡ spelling blob_rows (view (BlobMsg.TransferCancel id)) }
{
    let mut out = Payload::new();
    put_octets(&mut out, &[0x83, 0x02]);
    put_u64(&mut out, id);
    out
}

fn transfer_status(
    status: u8,
    mode: u8,
    phase: u8,
    id: Option<u64>,
    size: Option<u32>,
    log: Option<u8>,
    mtu: Option<u16>,
    blocks: Option<&[u8]>,
) -> Payload
    requires { Fits blob_rows (view (BlobMsg.TransferStatus status mode phase id size log mtu blocks)) }
    ensures { result.items ≡ spelling blob_rows (view (BlobMsg.TransferStatus status mode phase id size log mtu blocks.entry)) }
{
    let mut out = Payload::new();
    put_octets(&mut out, &[0x83, 0x03, status + mode * 64, phase]);
    if let Some(id) = id {
        put_u64(&mut out, id);
    }
    if let (Some(size), Some(log), Some(mtu), Some(blocks)) = (size, log, mtu, blocks) {
        put_u32(&mut out, size);
        put_u8(&mut out, log);
        put_u16(&mut out, mtu);
        put_octets(&mut out, blocks);
    }
    out
}

fn block_start(block: u16, chunk_size: u16) -> Payload
    ensures { result.items ≡ spelling blob_rows (view (BlobMsg.BlockStart block chunk_size)) }
{
    let mut out = Payload::new();
    put_octets(&mut out, &[0x83, 0x04]);
    put_u16(&mut out, block);
    put_u16(&mut out, chunk_size);
    out
}

fn blob_information_status(
    min_log: u8,
    max_log: u8,
    max_chunks: u16,
    max_chunk_size: u16,
    max_size: u32,
    mtu: u16,
    push: u8,
    pull: u8,
) -> Payload
    requires { Fits blob_rows (view (BlobMsg.BlobInformationStatus min_log max_log max_chunks max_chunk_size max_size mtu push pull)) }
    ensures { result.items ≡ spelling blob_rows (view (BlobMsg.BlobInformationStatus min_log max_log max_chunks max_chunk_size max_size mtu push pull)) }
{
    let mut out = Payload::new();
    put_octets(&mut out, &[0x83, 0x07, min_log, max_log]);
    put_u16(&mut out, max_chunks);
    put_u16(&mut out, max_chunk_size);
    put_u32(&mut out, max_size);
    put_u16(&mut out, mtu);
    put_u8(&mut out, push + pull * 2);
    out
}

fn chunk_transfer(chunk: u16, octets: &[u8]) -> Payload
    requires { length octets.now ≤ 377 }
    ensures { result.items ≡ spelling blob_rows (view (BlobMsg.ChunkTransfer chunk octets.entry)) }
{
    let mut out = Payload::new();
    put_u8(&mut out, 0x66);
    put_u16(&mut out, chunk);
    put_octets(&mut out, octets);
    out
}

fn block_status(status: u8, block: u16, chunk_size: u16, report: &Report) -> Payload
    requires { Fits blob_rows (view (BlobMsg.BlockStatus status block chunk_size report.now)) }
    ensures { result.items ≡ spelling blob_rows (view (BlobMsg.BlockStatus status block chunk_size report.now)) }
{
    let mut out = Payload::new();
    put_octets(&mut out, &[0x67, status + format_of(report) * 64]);
    put_u16(&mut out, block);
    put_u16(&mut out, chunk_size);
    match report {
        Report::All | Report::Nothing => {}
        Report::Bits(bits) => put_octets(&mut out, bits.as_slice()),
        Report::List(numbers) => put_list(&mut out, numbers.as_slice()),
    }
    out
}

fn format_of(report: &Report) -> u8
    ensures format { result ≡ format_of report.now }
    ensures most { result ≤ 3 }
{
    match report {
        Report::All => 0,
        Report::Nothing => 1,
        Report::Bits(_) => 2,
        Report::List(_) => 3,
    }
}

fn partial_block_report(numbers: &[u16]) -> Payload
    requires { 1 + length (entries_spelling (pattern missing ∷ []) (shown_numbers missing numbers.now)) ≤ 380 }
    ensures { result.items ≡ 0x68 ∷ entries_spelling (pattern missing ∷ []) (shown_numbers missing numbers.now) }
{
    let mut out = Payload::new();
    put_u8(&mut out, 0x68);
    put_list(&mut out, numbers);
    out
}

fn put_list(out: &mut Payload, numbers: &[u16])
    requires some { 1 ≤ array_vec_len out.old }
    requires room { array_vec_len out.old + length (entries_spelling (pattern missing ∷ []) (shown_numbers missing numbers.now)) ≤ 380 }
    ensures { out.new.items ≡ out.old.items ++ entries_spelling (pattern missing ∷ []) (shown_numbers missing numbers.now) }
{
    lists();
    match encode_list(numbers) {
        Some(octets) => put_octets(out, octets.as_slice()),
        None => prove!(false),
    }
}
