// The octets of what a client sends.
ghost use Rattle.std.specs.Prelude.{◌≡◌, ◌≤◌, ◌⊎◌, length};
ghost use Rattle.mu_model_node.specs.BlobMessages.{BlobInformationGet, TransferStart, BlockStart, BlockGet, ChunkTransfer};
ghost use Rattle.mu_model_node.specs.UpdateMessages.{InformationGet, MetadataCheck, StartUpdate, UpdateGet, UpdateApply, UpdateCancel};
ghost use Rattle.mu_model_node.specs.NodeMessages.{OfUpdate, OfBlob};
ghost use Rattle.mu_model_client.specs.Lists.{metadata_of, transfer_message};
ghost use Rattle.mu_model_client.specs.Packets.{request_octets};
ghost use Rattle.mu_told.specs.Told.{IsSendable};
ghost use Rattle.mu_rounds.specs.Sents.{request_of, SaysOctets};
ghost use Rattle.mu_client_messages.specs.Messages.{HasMode};

use arrayvec::ArrayVec;
use mu_blobmsg::{BlobMsg, write as write_blob};
use mu_codec::Payload;
use mu_image::meta_octets;
use mu_model_client::{Purpose, Sending};
use mu_rounds::Said;
use mu_updmsg::{UpdMsg, write as write_update};

// The octets of the image's metadata; a BLOB alone has none.
fn metadata(purpose: &Purpose) -> ArrayVec<u8, 40>
    ensures metadata { result.items ≡ metadata_of purpose.now }
{
    let mut octets = ArrayVec::new();
    if let Purpose::Update(meta, _) = purpose {
        if octets.try_extend_from_slice(&meta_octets(meta)).is_err() {
            prove!(false);
        }
    }
    octets
}

fn check(purpose: &Purpose, index: u8) -> Payload
    ensures { result.items ≡ request_octets (OfUpdate (MetadataCheck index (metadata_of purpose.now))) }
{
    let octets = metadata(purpose);
    write_update(&UpdMsg::MetadataCheck {
        index,
        metadata: octets.as_slice(),
    })
}

fn update_start(ttl: u8, base: u16, id: u64, index: u8, metadata: &[u8]) -> Payload
    requires { length metadata.now ≤ 40 }
    ensures { result.items ≡ request_octets (OfUpdate (StartUpdate (record { ttl = ttl; base = base; id = id; index = index; metadata = metadata.now }))) }
{
    write_update(&UpdMsg::UpdateStart {
        ttl,
        base,
        id,
        index,
        metadata,
    })
}

fn start(sending: &Sending, purpose: &Purpose, index: u8) -> Payload
    ensures { result.items ≡ request_octets (OfUpdate (StartUpdate (record { ttl = sending.now.ttl; base = sending.now.base; id = sending.now.id; index = index; metadata = metadata_of purpose.now }))) }
{
    let octets = metadata(purpose);
    update_start(
        sending.ttl,
        sending.base,
        sending.id,
        index,
        octets.as_slice(),
    )
}

fn transfer_start(mode: u8, id: u64, size: u32, log: u8) -> Payload
    requires mode { (mode ≡ 1) ⊎ (mode ≡ 2) }
    requires size { 1 ≤ size }
    requires least { 12 ≤ log }
    requires most { log ≤ 14 }
    ensures { result.items ≡ request_octets (OfBlob (TransferStart id (record { mode = mode; size = size; log = log; mtu = 380 }))) }
{
    write_blob(&BlobMsg::TransferStart {
        mode,
        id,
        size,
        log,
        mtu: 380,
    })
}

fn transfer(sending: &Sending) -> Payload
    requires range { IsSendable sending.now }
    requires mode { HasMode sending.now }
    ensures { result.items ≡ request_octets (transfer_message sending.now) }
{
    transfer_start(sending.mode, sending.id, sending.size, sending.log)
}

fn chunk(number: u16, octets: &[u8]) -> Payload
    requires least { 1 ≤ length octets.now }
    requires most { length octets.now ≤ 376 }
    ensures { result.items ≡ request_octets (OfBlob (ChunkTransfer number octets.now)) }
{
    write_blob(&BlobMsg::ChunkTransfer {
        chunk: number,
        octets,
    })
}

fn block_start(block: u16, chunk_size: u16) -> Payload
    ensures { result.items ≡ request_octets (OfBlob (BlockStart block chunk_size)) }
{
    write_blob(&BlobMsg::BlockStart { block, chunk_size })
}

fn information_get(index: u8) -> Payload
    ensures { result.items ≡ request_octets (OfUpdate (InformationGet index 1)) }
{
    write_update(&UpdMsg::InformationGet {
        first: index,
        limit: 1,
    })
}

/// The octets of what a client sends.
pub fn octets_of(sending: &Sending, purpose: &Purpose, said: &Said) -> Payload
    requires range { IsSendable sending.now }
    requires mode { HasMode sending.now }
    requires some { SaysOctets said.now }
    ensures { result.items ≡ request_octets (request_of sending.now purpose.now said.now) }
{
    match said {
        Said::MetadataCheck { index } => check(purpose, *index),
        Said::UpdateStart { index } => start(sending, purpose, *index),
        Said::BlobInformationGet => write_blob(&BlobMsg::BlobInformationGet),
        Said::TransferStart => transfer(sending),
        Said::BlockStart { block } => block_start(*block, sending.chunk),
        Said::ChunkTransfer {
            chunk: number,
            octets,
        } => chunk(*number, octets.as_slice()),
        Said::BlockGet => write_blob(&BlobMsg::BlockGet),
        Said::UpdateGet => write_update(&UpdMsg::UpdateGet),
        Said::UpdateApply => write_update(&UpdMsg::UpdateApply),
        Said::InformationGet { index } => information_get(*index),
        Said::UpdateCancel => write_update(&UpdMsg::UpdateCancel),
    }
}
