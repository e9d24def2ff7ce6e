// The rows by the phase that they find.
ghost use Rattle.std.specs.Prelude.{ℕ, ◌≡◌, ◌<◌, ◌≤◌, List, None, Some, length};
ghost use Rattle.mu_model_node.specs.Slots.{Slots};
ghost use Rattle.mu_model_node.specs.declared.Parameters.{Parameters};
ghost use Rattle.mu_model_node.specs.BlobServer.{Server as AnyServer, NextBlock};
ghost use Rattle.mu_model_node.specs.BlobTable.{starts, resumes, repeats, on_transfer_start, on_transfer_cancel, on_block_start, tell_last, on_block_get, on_chunk_transfer};
ghost use Rattle.mu_blob_rows.specs.declared.table.BlocksLook.{BlocksLook as AnyBlocks};
ghost use Rattle.mu_blob_rows.specs.declared.looks.Look.{Look as AnyLook};
ghost use Rattle.mu_blob_rows.specs.declared.looks.TransferLook.{TransferLook as AnyTransfer};
ghost use Rattle.mu_blob_rows.specs.Sessions.{link_by};
ghost use Rattle.mu_blob_rows.specs.Looks.{transfer_with, phase_with, server_with, PhaseOf};
ghost use Rattle.mu_blob_rows.specs.Rows.{ChangeFits, told_by, block_told_by, BlocksLookSo, SessionFits, OpensThis, ReportFits, LacksWith, HearsOrKeeps, ChunkLooksSo, chunk_step, chunk_stepped, ChunkStepFits};

use crate::looks::{BlobPhase, Look, Serving, TransferLook};
use crate::session::{LinkChange, SessionChange};
use crate::table::{BlockTold, BlocksLook, ChunkLook, ChunkStep, ReportTold, Told, TransferChange};
use mu_model_node::{Link, Parameters};

const SUCCESS: u8 = 0;

const INVALID_BLOCK_NUMBER: u8 = 1;

const INVALID_BLOCK_SIZE: u8 = 2;

const INVALID_CHUNK_SIZE: u8 = 3;

const WRONG_PHASE: u8 = 4;

const INVALID_PARAMETER: u8 = 5;

const WRONG_BLOB_ID: u8 = 6;

const BLOB_TOO_LARGE: u8 = 7;

fn refused(status: u8) -> Told
    ensures { result ≡ record { link = LinkChange.Keeps; change = TransferChange.Nothing; status = status } }
{
    Told {
        link: LinkChange::Keeps,
        change: TransferChange::Nothing,
        status,
    }
}

fn accepted(link: LinkChange, change: TransferChange) -> Told
    ensures { result ≡ record { link = link; change = change; status = 0 } }
{
    Told {
        link,
        change,
        status: SUCCESS,
    }
}

fn start<'a>(look: Look<'a>, parameters: Parameters, transfer: TransferLook) -> Told
    requires serving { look.serving ≡ Serving.Lacking transfer }
    requires new { transfer.parameters ≡ None }
    ensures known { result.status ≤ 7 }
    ensures fits { ChangeFits look.entry.serving look.entry.capacity parameters result.change }
    ensures told { (held chunks : Slots) (to : ℕ) → starts (server_with look.entry held chunks) to parameters (transfer_with transfer held) ≡ told_by (server_with look.entry held chunks) to parameters result }
{
    if parameters.size > look.capacity {
        refused(BLOB_TOO_LARGE)
    } else if parameters.log < 12 || parameters.log > 14 {
        refused(INVALID_BLOCK_SIZE)
    } else if parameters.size != transfer.size {
        refused(INVALID_PARAMETER)
    } else {
        accepted(LinkChange::Links, TransferChange::Begin)
    }
}

fn resume<'a>(look: Look<'a>, parameters: Parameters, present: Parameters) -> Told
    ensures known { result.status ≤ 7 }
    ensures nothing { result.change ≡ TransferChange.Nothing }
    ensures told { (held chunks : Slots) (to : ℕ) → resumes (server_with look.entry held chunks) to parameters present ≡ told_by (server_with look.entry held chunks) to parameters result }
{
    if parameters == present {
        accepted(LinkChange::Links, TransferChange::Nothing)
    } else {
        refused(INVALID_PARAMETER)
    }
}

fn repeat<'a>(
    look: Look<'a>,
    heard: LinkChange,
    parameters: Parameters,
    transfer: TransferLook,
) -> Told
    ensures known { result.status ≤ 7 }
    ensures nothing { result.change ≡ TransferChange.Nothing }
    ensures told { (held chunks : Slots) (to : ℕ) → repeats (server_with look.entry held chunks) (link_by heard look.entry.now to (server_with look.entry held chunks).session) to parameters (transfer_with transfer held) ≡ told_by (server_with look.entry held chunks) to parameters result }
{
    match transfer.parameters {
        Some(present) if parameters == present => accepted(heard, TransferChange::Nothing),
        _ => refused(WRONG_PHASE),
    }
}

/// BLOB Transfer Start.
pub(crate) fn decide_start<'a>(
    look: Look<'a>,
    id: u64,
    parameters: Parameters,
    phase: BlobPhase,
) -> Told
    requires { PhaseOf look phase }
    ensures known { result.status ≤ 7 }
    ensures fits { ChangeFits look.entry.serving look.entry.capacity parameters result.change }
    ensures told { (held chunks : Slots) (to : ℕ) → on_transfer_start (server_with look.entry held chunks) to id parameters (phase_with phase held chunks) ≡ told_by (server_with look.entry held chunks) to parameters result }
{
    match phase {
        BlobPhase::WaitingForStart(transfer) if id == transfer.id => {
            start(look, parameters, transfer)
        }
        BlobPhase::Suspended(transfer, present) if look.session.link == Link::Ready => {
            if id == transfer.id {
                resume(look, parameters, present)
            } else {
                refused(WRONG_BLOB_ID)
            }
        }
        BlobPhase::NextBlock(transfer, _) | BlobPhase::NextChunk(transfer, _, _)
            if id == transfer.id => { repeat(look, LinkChange::Hears, parameters, transfer) }
        BlobPhase::Complete(transfer) if id == transfer.id => {
            repeat(look, LinkChange::Keeps, parameters, transfer)
        }
        BlobPhase::Inactive | BlobPhase::Suspended(..) => refused(WRONG_PHASE),
        _ => refused(WRONG_BLOB_ID),
    }
}

/// BLOB Transfer Cancel.
pub(crate) fn decide_cancel<'a>(look: Look<'a>, id: u64) -> Told
    ensures known { result.status ≤ 7 }
    ensures fits { (p : Parameters) → ChangeFits look.entry.serving look.entry.capacity p result.change }
    ensures told { (held chunks : Slots) (to : ℕ) (p : Parameters) → on_transfer_cancel (server_with look.entry held chunks) to id (server_with look.entry held chunks).serving ≡ told_by (server_with look.entry held chunks) to p result }
{
    match look.serving {
        Serving::NoJob => refused(SUCCESS),
        Serving::Lacking(transfer) if id == transfer.id => match transfer.parameters {
            None => accepted(LinkChange::Unlinks, TransferChange::Nothing),
            Some(_) => accepted(LinkChange::Unlinks, TransferChange::Drop),
        },
        Serving::Whole(transfer) if id == transfer.id => refused(WRONG_PHASE),
        _ => refused(WRONG_BLOB_ID),
    }
}

fn block_told(
    session: SessionChange,
    status: u8,
    block: u16,
    chunk_size: u16,
    report: ReportTold,
) -> BlockTold
    ensures { result ≡ record { session = session; status = status; block = block; chunk_size = chunk_size; report = report } }
{
    BlockTold {
        session,
        status,
        block,
        chunk_size,
        report,
    }
}

fn refused_block(status: u8, block: u16, chunk_size: u16) -> BlockTold
    ensures { result ≡ record { session = SessionChange.Link LinkChange.Keeps; status = status; block = block; chunk_size = chunk_size; report = ReportTold.All } }
{
    let keeps = SessionChange::Link(LinkChange::Keeps);
    block_told(keeps, status, block, chunk_size, ReportTold::All)
}

fn next_block(parameters: Parameters, block: u16, chunk_size: u16, blocks: BlocksLook) -> BlockTold
    ensures known { result.status ≤ 7 }
    ensures report { (v : AnyLook) → ReportFits v result.report }
    ensures opens { OpensThis block result.session }
    ensures session { (v : AnyLook) → LacksWith v.serving parameters → v.session.now.link ≡ Link.Running → v.current ≡ None → SessionFits v blocks result.session }
    ensures told { (v : AnyServer) (t : AnyTransfer) (held chunks : Slots) (to : ℕ) → BlocksLookSo held block blocks → on_block_start v to block chunk_size (NextBlock (transfer_with t held) parameters) ≡ block_told_by v to chunks result }
{
    let most = parameters.mtu.saturating_sub(4).min(376);
    if block >= blocks.count {
        refused_block(INVALID_BLOCK_NUMBER, block, chunk_size)
    } else if chunk_size < 8 || chunk_size > most {
        refused_block(INVALID_CHUNK_SIZE, block, chunk_size)
    } else if blocks.is_held {
        let holds = SessionChange::Holds { block, chunk_size };
        block_told(holds, SUCCESS, block, chunk_size, ReportTold::Nothing)
    } else {
        let opens = SessionChange::Opens {
            parameters,
            block,
            chunk_size,
        };
        block_told(opens, SUCCESS, block, chunk_size, ReportTold::All)
    }
}

/// BLOB Block Start.
pub(crate) fn decide_block_start<'a>(
    look: Look<'a>,
    block: u16,
    chunk_size: u16,
    blocks: BlocksLook,
    phase: BlobPhase,
) -> BlockTold
    requires { PhaseOf look phase }
    ensures known { result.status ≤ 7 }
    ensures report { ReportFits look.entry result.report }
    ensures opens { OpensThis block result.session }
    ensures session { SessionFits look.entry blocks result.session }
    ensures told { (held chunks : Slots) (to : ℕ) → BlocksLookSo held block blocks → on_block_start (server_with look.entry held chunks) to block chunk_size (phase_with phase held chunks) ≡ block_told_by (server_with look.entry held chunks) to chunks result }
{
    match phase {
        BlobPhase::NextBlock(_, parameters) => next_block(parameters, block, chunk_size, blocks),
        BlobPhase::NextChunk(_, _, current)
            if block == current.number && chunk_size == current.chunk_size => {
            let hears = SessionChange::Link(LinkChange::Hears);
            block_told(hears, SUCCESS, block, chunk_size, ReportTold::Missing)
        }
        _ => refused_block(WRONG_PHASE, block, chunk_size),
    }
}

fn told_last<'a>(look: Look<'a>, heard: LinkChange) -> BlockTold
    requires { HearsOrKeeps heard }
    ensures known { result.status ≤ 7 }
    ensures report { ReportFits look.entry result.report }
    ensures session { (blocks : AnyBlocks) → SessionFits look.entry blocks result.session }
    ensures told { (held chunks : Slots) (to : ℕ) → tell_last (server_with look.entry held chunks).session (link_by heard look.entry.now to (server_with look.entry held chunks).session) to (server_with look.entry held chunks).session.last ≡ block_told_by (server_with look.entry held chunks) to chunks result }
{
    match look.session.last {
        None => refused_block(WRONG_PHASE, 0, 0),
        Some(last) => {
            let heard = SessionChange::Link(heard);
            block_told(
                heard,
                SUCCESS,
                last.number,
                last.chunk_size,
                ReportTold::Nothing,
            )
        }
    }
}

/// BLOB Block Get.
pub(crate) fn decide_block_get<'a>(look: Look<'a>, phase: BlobPhase) -> BlockTold
    requires { PhaseOf look phase }
    ensures known { result.status ≤ 7 }
    ensures report { ReportFits look.entry result.report }
    ensures session { (blocks : AnyBlocks) → SessionFits look.entry blocks result.session }
    ensures told { (held chunks : Slots) (to : ℕ) → on_block_get (server_with look.entry held chunks) to (phase_with phase held chunks) ≡ block_told_by (server_with look.entry held chunks) to chunks result }
{
    match phase {
        BlobPhase::NextChunk(_, _, current) => {
            let hears = SessionChange::Link(LinkChange::Hears);
            block_told(
                hears,
                SUCCESS,
                current.number,
                current.chunk_size,
                ReportTold::Missing,
            )
        }
        BlobPhase::NextBlock(..) => told_last(look, LinkChange::Hears),
        BlobPhase::Complete(_) => told_last(look, LinkChange::Keeps),
        _ => refused_block(WRONG_PHASE, 0, 0),
    }
}

fn next_chunk(parameters: Parameters, look: ChunkLook, octets: usize) -> ChunkStep
    ensures { result ≡ chunk_step parameters look octets }
{
    if octets != usize::from(look.octets) {
        ChunkStep::PassOver
    } else if look.is_received {
        ChunkStep::Hear
    } else {
        ChunkStep::Receive(parameters)
    }
}

/// BLOB Chunk Transfer.
pub(crate) fn decide_chunk<'a>(
    look: Look<'a>,
    chunk: Option<ChunkLook>,
    octets: usize,
    phase: BlobPhase,
) -> ChunkStep
    requires { PhaseOf look phase }
    ensures fits { ChunkStepFits look.entry chunk octets result }
    ensures stepped { (held chunks : Slots) (n : ℕ) (all : List ℕ) → length all ≡ octets → ChunkLooksSo look.entry n chunks chunk
        → on_chunk_transfer (server_with look.entry held chunks) n all (phase_with phase held chunks) ≡ chunk_stepped (server_with look.entry held chunks) n all result }
{
    match phase {
        BlobPhase::NextChunk(_, parameters, _) => match chunk {
            None => ChunkStep::PassOver,
            Some(chunk) => next_chunk(parameters, chunk, octets),
        },
        _ => ChunkStep::PassOver,
    }
}
