// What a client takes of a message that it receives.
ghost use Rattle.std.specs.Prelude.{◌≡◌, drop, map, is_some, IfSome};
ghost use Rattle.mu_model_wire.specs.Spelling.{Fits};
ghost use Rattle.mu_model_wire.specs.Blob.{blob_rows};
ghost use Rattle.mu_model_wire.specs.Update.{update_rows};
ghost use Rattle.mu_model_wire.specs.Names.{id};
ghost use Rattle.mu_model_client.specs.Answers.{answer_of as takes, transfer_of, octets_in};
ghost use Rattle.mu_blobmsg.specs.View.{view as blob_view};
ghost use Rattle.mu_updmsg.specs.View.{view as update_view, entry_shown};
ghost use Rattle.mu_rounds.specs.Told.{HeardShort};
ghost use Rattle.mu_told.specs.Answers.{blob_answer_of, IsShort};
ghost use Rattle.mu_told.specs.Told.{ids_of};
ghost use Rattle.mu_client_messages.specs.Messages.{answer_heard, parameters_shown, field_shown, job_shown};

use mu_blobmsg::BlobMsg;
use mu_model_node::Parameters;
use mu_rounds::{Heard, UpdateAnswer};
use mu_told::{BlobAnswer, Limits, Shown};
use mu_updmsg::{Entry, UpdMsg};

// The parameters of a transfer, whose fields are there together.
fn parameters_shown(
    mode: u8,
    size: Option<u32>,
    log: Option<u8>,
    mtu: Option<u16>,
) -> Option<Parameters>
    ensures { result ≡ parameters_shown mode size log mtu }
{
    match size {
        Some(size) => Some(Parameters {
            mode,
            size,
            log: log.unwrap_or(0),
            mtu: mtu.unwrap_or(0),
        }),
        None => None,
    }
}

fn field_shown<'a>(blocks: Option<&'a [u8]>) -> &'a [u8]
    ensures { result.now ≡ field_shown blocks.entry }
{
    match blocks {
        Some(octets) => octets,
        None => &[],
    }
}

// What a Transfer Status tells.
fn transfer_answer<'a>(
    status: u8,
    mode: u8,
    phase: u8,
    id: Option<u64>,
    size: Option<u32>,
    log: Option<u8>,
    mtu: Option<u16>,
    blocks: Option<&'a [u8]>,
) -> BlobAnswer<'a>
    requires { Fits blob_rows (blob_view (BlobMsg.TransferStatus status mode phase id size log mtu blocks)) }
    ensures answer { blob_answer_of result ≡ transfer_of (blob_view (BlobMsg.TransferStatus status mode phase id size log mtu blocks.entry)).fields }
    ensures short { IsShort result }
{
    BlobAnswer::Transfer {
        status,
        phase,
        id,
        parameters: parameters_shown(mode, size, log, mtu),
        field: field_shown(blocks),
    }
}

/// What a BLOB Transfer message tells a client, if it is one that a client takes.
#[tactic(auto, using(crate::proofs::Heard::block_told, crate::proofs::Heard::numbers_again))]
pub fn blob_heard<'a>(message: &'a BlobMsg<'a>) -> Option<Heard<'a>>
    requires { Fits blob_rows (blob_view message.now) }
    ensures heard { answer_heard (blob_view message.now) result ≡ takes (blob_view message.now) }
    ensures short { IfSome result HeardShort }
{
    match message {
        BlobMsg::TransferStatus {
            status,
            mode,
            phase,
            id,
            size,
            log,
            mtu,
            blocks,
        } => Some(Heard::Blob(transfer_answer(
            *status, *mode, *phase, *id, *size, *log, *mtu, *blocks,
        ))),
        BlobMsg::BlobInformationStatus {
            min_log,
            max_log,
            max_chunks,
            max_chunk_size,
            max_size,
            mtu,
            push,
            pull,
        } => Some(Heard::Blob(BlobAnswer::Information(Limits {
            least_log: *min_log,
            most_log: *max_log,
            most_chunks: *max_chunks,
            most_chunk: *max_chunk_size,
            most_size: *max_size,
            mtu: *mtu,
            push: *push == 1,
            pull: *pull == 1,
        }))),
        BlobMsg::BlockStatus {
            status,
            block,
            chunk_size,
            report,
        } => Some(Heard::Blob(BlobAnswer::Block {
            status: *status,
            block: *block,
            chunk_size: *chunk_size,
            report,
        })),
        BlobMsg::PartialBlockReport { missing } => {
            Some(Heard::Blob(BlobAnswer::Part(missing.as_slice())))
        }
        _ => None,
    }
}

// The Firmware ID of the first entry.
fn first_shown<'a>(entries: &[Entry<'a>]) -> Option<&'a [u8]>
    ensures { ids_of result (drop 1 (octets_in id (map entry_shown entries.now))) ≡ octets_in id (map entry_shown entries.now) }
{
    match entries {
        [entry, ..] => Some(entry.id),
        [] => None,
    }
}

// What an Update Status shows of a job, whose fields are there together.
fn job_shown(
    ttl: Option<u8>,
    base: Option<u16>,
    id: Option<u64>,
    index: Option<u8>,
) -> Option<Shown>
    ensures { result ≡ job_shown ttl base id index }
{
    match ttl {
        Some(ttl) => Some(Shown {
            ttl,
            base: base.unwrap_or(0),
            id: id.unwrap_or(0),
            index: index.unwrap_or(0),
        }),
        None => None,
    }
}

/// What a Firmware Update message tells a client, if it is one that a client takes.
pub fn update_heard<'a>(message: &'a UpdMsg<'a>) -> Option<Heard<'a>>
    requires { Fits update_rows (update_view message.now) }
    ensures heard { answer_heard (update_view message.now) result ≡ takes (update_view message.now) }
    ensures short { IfSome result HeardShort }
{
    match message {
        UpdMsg::InformationStatus { first, entries, .. } => {
            Some(Heard::Update(UpdateAnswer::Information {
                first: *first,
                shown: first_shown(entries.as_slice()),
            }))
        }
        UpdMsg::MetadataStatus { status, index, .. } => {
            Some(Heard::Update(UpdateAnswer::Metadata {
                status: *status,
                index: *index,
            }))
        }
        UpdMsg::UpdateStatus {
            status,
            phase,
            ttl,
            base,
            id,
            index,
            ..
        } => Some(Heard::Update(UpdateAnswer::Status {
            status: *status,
            phase: *phase,
            job: job_shown(*ttl, *base, *id, *index),
        })),
        _ => None,
    }
}

/// Whether a client takes such a BLOB Transfer message.
pub fn takes_blob(message: &BlobMsg) -> bool
    requires { Fits blob_rows (blob_view message.now) }
    ensures { result ≡ is_some (takes (blob_view message.now)) }
{
    blob_heard(message).is_some()
}

/// Whether a client takes such a Firmware Update message.
pub fn takes_update(message: &UpdMsg) -> bool
    requires { Fits update_rows (update_view message.now) }
    ensures { result ≡ is_some (takes (update_view message.now)) }
{
    update_heard(message).is_some()
}
