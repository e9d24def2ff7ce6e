ghost use Rattle.std.specs.Prelude.{◌≡◌, ◌∷◌, [], map};
ghost use Rattle.arrayvec.specs.ArrayVec.{array_vec_len};
ghost use Rattle.mu_model_wire.specs.Fields.{number as shown_number};
ghost use Rattle.mu_model_wire.specs.Names.{status as status_name, format as format_name, block as block_name, chunk_size as chunk_size_name};
ghost use Rattle.mu_blobmsg.specs.View.{view};
ghost use Rattle.mu_shown.specs.Lines.{shown_line};
ghost use Rattle.mu_shown.specs.Seen.{seen, Shows};
ghost use Rattle.mu_shown.specs.Written.{Writes};

use crate::fields::{
    Fields, number, number_there, octets, octets_there, of_four, of_octet, of_two,
};
use crate::lines::Line;
use crate::lists::List;
use crate::names::Name;
use crate::writing::{put_bare, put_line};
use arrayvec::ArrayVec;
use mu_blobmsg::BlobMsg;
use mu_outside::{Failed, Sink};
use mu_report::Report;

/// Writes the line that shows a message of the BLOB Transfer model.
pub fn show_blob<K: Sink>(msg: &BlobMsg, sink: &mut K) -> Result<(), Failed>
    ensures { Writes (K.written sink.old) (K.written sink.new) (K.faults sink.old) (K.faults sink.new) result (shown_line (view msg.now)) }
{
    match msg {
        BlobMsg::TransferGet => put_bare(sink, b"transfer-get"),
        BlobMsg::TransferStart {
            mode,
            id,
            size,
            log,
            mtu,
        } => put_line(sink, &transfer_start(*mode, *id, *size, *log, *mtu)),
        BlobMsg::TransferCancel { id } => put_line(sink, &transfer_cancel(*id)),
        BlobMsg::TransferStatus {
            status,
            mode,
            phase,
            id,
            size,
            log,
            mtu,
            blocks,
        } => put_line(
            sink,
            &transfer_status(*status, *mode, *phase, *id, *size, *log, *mtu, *blocks),
        ),
        BlobMsg::BlockStart { block, chunk_size } => put_line(
            sink,
            &block_start(*block, *chunk_size),
        ),
        BlobMsg::BlockGet => put_bare(sink, b"block-get"),
        BlobMsg::BlobInformationGet => put_bare(sink, b"blob-information-get"),
        BlobMsg::BlobInformationStatus {
            min_log,
            max_log,
            max_chunks,
            max_chunk_size,
            max_size,
            mtu,
            push,
            pull,
        } => put_line(
            sink,
            &blob_information_status(
                *min_log,
                *max_log,
                *max_chunks,
                *max_chunk_size,
                *max_size,
                *mtu,
                *push,
                *pull,
            ),
        ),
        BlobMsg::ChunkTransfer { chunk, octets } => put_line(sink, &chunk_transfer(*chunk, octets)),
        BlobMsg::BlockStatus {
            status,
            block,
            chunk_size,
            report,
        } => block_status(*status, *block, *chunk_size, report, sink),
        BlobMsg::PartialBlockReport { missing } => put_line(sink, &partial_block_report(missing)),
    }
}

fn transfer_start<'m, 'a>(mode: u8, id: u64, size: u32, log: u8, mtu: u16) -> Line<'m, 'a>
    ensures { Shows result (view (BlobMsg.TransferStart mode id size log mtu)) }
{
    let mut fields = Fields::new();
    number(&mut fields, Name::Mode, mode as u64);
    number(&mut fields, Name::Id, id);
    number(&mut fields, Name::Size, size as u64);
    number(&mut fields, Name::Log, log as u64);
    number(&mut fields, Name::Mtu, mtu as u64);
    Line {
        name: b"transfer-start",
        fields,
        list: List::Nothing,
    }
}

fn transfer_cancel<'m, 'a>(id: u64) -> Line<'m, 'a>
    ensures { Shows result (view (BlobMsg.TransferCancel id)) }
{
    let mut fields = Fields::new();
    number(&mut fields, Name::Id, id);
    Line {
        name: b"transfer-cancel",
        fields,
        list: List::Nothing,
    }
}

fn transfer_status<'m, 'a>(
    status: u8,
    mode: u8,
    phase: u8,
    id: Option<u64>,
    size: Option<u32>,
    log: Option<u8>,
    mtu: Option<u16>,
    blocks: Option<&'m [u8]>,
) -> Line<'m, 'a>
    ensures { Shows result (view (BlobMsg.TransferStatus status mode phase id size log mtu blocks.entry)) }
{
    let mut fields = Fields::new();
    number(&mut fields, Name::Status, status as u64);
    number(&mut fields, Name::Mode, mode as u64);
    number(&mut fields, Name::Phase, phase as u64);
    number_there(&mut fields, Name::Id, id);
    number_there(&mut fields, Name::Size, of_four(size));
    number_there(&mut fields, Name::Log, of_octet(log));
    number_there(&mut fields, Name::Mtu, of_two(mtu));
    octets_there(&mut fields, Name::Blocks, blocks);
    Line {
        name: b"transfer-status",
        fields,
        list: List::Nothing,
    }
}

fn block_start<'m, 'a>(block: u16, chunk_size: u16) -> Line<'m, 'a>
    ensures { Shows result (view (BlobMsg.BlockStart block chunk_size)) }
{
    let mut fields = Fields::new();
    number(&mut fields, Name::Block, block as u64);
    number(&mut fields, Name::ChunkSize, chunk_size as u64);
    Line {
        name: b"block-start",
        fields,
        list: List::Nothing,
    }
}

fn blob_information_status<'m, 'a>(
    min_log: u8,
    max_log: u8,
    max_chunks: u16,
    max_chunk_size: u16,
    max_size: u32,
    mtu: u16,
    push: u8,
    pull: u8,
) -> Line<'m, 'a>
    ensures { Shows result (view (BlobMsg.BlobInformationStatus min_log max_log max_chunks max_chunk_size max_size mtu push pull)) }
{
    let mut fields = Fields::new();
    number(&mut fields, Name::MinLog, min_log as u64);
    number(&mut fields, Name::MaxLog, max_log as u64);
    number(&mut fields, Name::MaxChunks, max_chunks as u64);
    number(&mut fields, Name::MaxChunkSize, max_chunk_size as u64);
    number(&mut fields, Name::MaxSize, max_size as u64);
    number(&mut fields, Name::Mtu, mtu as u64);
    number(&mut fields, Name::Push, push as u64);
    number(&mut fields, Name::Pull, pull as u64);
    Line {
        name: b"blob-information-status",
        fields,
        list: List::Nothing,
    }
}

fn chunk_transfer<'m, 'a>(chunk: u16, bytes: &'m [u8]) -> Line<'m, 'a>
    ensures { Shows result (view (BlobMsg.ChunkTransfer chunk bytes.entry)) }
{
    let mut fields = Fields::new();
    number(&mut fields, Name::Chunk, chunk as u64);
    octets(&mut fields, Name::Octets, bytes);
    Line {
        name: b"chunk-transfer",
        fields,
        list: List::Nothing,
    }
}

fn partial_block_report<'m, 'a>(missing: &'m ArrayVec<u16, 379>) -> Line<'m, 'a>
    ensures { Shows result (view (BlobMsg.PartialBlockReport missing.now)) }
{
    Line {
        name: b"partial-block-report",
        fields: Fields::new(),
        list: List::Numbers(missing.as_slice()),
    }
}

fn block_status<K: Sink>(
    status: u8,
    block: u16,
    chunk_size: u16,
    report: &Report,
    sink: &mut K,
) -> Result<(), Failed>
    ensures { Writes (K.written sink.old) (K.written sink.new) (K.faults sink.old) (K.faults sink.new) result (shown_line (view (BlobMsg.BlockStatus status block chunk_size report.now))) }
{
    match report {
        Report::All => put_line(sink, &block_status_all(status, block, chunk_size)),
        Report::Nothing => put_line(sink, &block_status_nothing(status, block, chunk_size)),
        Report::Bits(bits) => put_line(sink, &block_status_bits(status, block, chunk_size, bits)),
        Report::List(missing) => put_line(
            sink,
            &block_status_list(status, block, chunk_size, missing),
        ),
    }
}

fn block_status_all<'m, 'a>(status: u8, block: u16, chunk_size: u16) -> Line<'m, 'a>
    ensures { Shows result (view (BlobMsg.BlockStatus status block chunk_size Report.All)) }
{
    Line {
        name: b"block-status",
        fields: of_block(status, 0, block, chunk_size),
        list: List::Nothing,
    }
}

fn block_status_nothing<'m, 'a>(status: u8, block: u16, chunk_size: u16) -> Line<'m, 'a>
    ensures { Shows result (view (BlobMsg.BlockStatus status block chunk_size Report.Nothing)) }
{
    Line {
        name: b"block-status",
        fields: of_block(status, 1, block, chunk_size),
        list: List::Nothing,
    }
}

fn block_status_bits<'m, 'a>(
    status: u8,
    block: u16,
    chunk_size: u16,
    bits: &'m ArrayVec<u8, 374>,
) -> Line<'m, 'a>
    ensures { Shows result (view (BlobMsg.BlockStatus status block chunk_size (Report.Bits bits.now))) }
{
    let mut fields = of_block(status, 2, block, chunk_size);
    octets(&mut fields, Name::Bits, bits.as_slice());
    Line {
        name: b"block-status",
        fields,
        list: List::Nothing,
    }
}

fn block_status_list<'m, 'a>(
    status: u8,
    block: u16,
    chunk_size: u16,
    missing: &'m ArrayVec<u16, 374>,
) -> Line<'m, 'a>
    ensures { Shows result (view (BlobMsg.BlockStatus status block chunk_size (Report.List missing.now))) }
{
    Line {
        name: b"block-status",
        fields: of_block(status, 3, block, chunk_size),
        list: List::Numbers(missing.as_slice()),
    }
}

// The fields that every Block Status has.
fn of_block<'m>(status: u8, format: u8, block: u16, chunk_size: u16) -> Fields<'m>
    ensures shown { map seen result.items ≡ shown_number status_name status ∷ shown_number format_name format ∷ shown_number block_name block ∷ shown_number chunk_size_name chunk_size ∷ [] }
    ensures len { array_vec_len result ≡ 4 }
{
    let mut fields = Fields::new();
    number(&mut fields, Name::Status, status as u64);
    number(&mut fields, Name::Format, format as u64);
    number(&mut fields, Name::Block, block as u64);
    number(&mut fields, Name::ChunkSize, chunk_size as u64);
    fields
}
