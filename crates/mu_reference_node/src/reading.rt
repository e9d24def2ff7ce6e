// What a packet asks of a node.
ghost use Rattle.std.specs.Prelude.{◌≡◌, IfSome, None};
ghost use Rattle.mu_blobmsg.specs.View.{view as blob_view};
ghost use Rattle.mu_updmsg.specs.View.{view as update_view};
ghost use Rattle.mu_model_wire.specs.Blob.{blob_rows};
ghost use Rattle.mu_model_wire.specs.Distribution.{distribution_rows};
ghost use Rattle.mu_model_wire.specs.Reading.{message_at};
ghost use Rattle.mu_model_wire.specs.Update.{update_rows};
ghost use Rattle.mu_model_node.specs.BlobMessages.{blob_request_of as blob_request_in};
ghost use Rattle.mu_model_node.specs.UpdateMessages.{update_request_of as update_request_in};
ghost use Rattle.mu_model_node.specs.NodeMessages.{request_in, request_at};
ghost use Rattle.mu_model_node.specs.Sound.{RequestFits};
ghost use Rattle.mu_model_node.specs.There.{there};
ghost use Rattle.mu_reference.specs.Messages.{request_of};
ghost use Rattle.mu_update_rows.specs.Messages.{update_request_of};
ghost use Rattle.mu_blob_answers.specs.Messages.{blob_request_of};

use mu_access::{Part, part_of};
use mu_blobmsg::BlobMsg;
use mu_model_node::Parameters;
use mu_model_node::laws::octets_ask_in_range;
use mu_reference::{BlobRequest, Request, UpdateRequest, UpdateStart};
use mu_updmsg::UpdMsg;

#[inline(always)]
fn blob_request<'a>(message: BlobMsg<'a>) -> Option<BlobRequest<'a>>
    ensures { there blob_request_of result ≡ blob_request_in (blob_view message.entry) }
{
    match message {
        BlobMsg::BlobInformationGet => Some(BlobRequest::BlobInformationGet),
        BlobMsg::TransferGet => Some(BlobRequest::TransferGet),
        BlobMsg::TransferStart {
            mode,
            id,
            size,
            log,
            mtu,
        } => Some(BlobRequest::TransferStart {
            id,
            parameters: Parameters {
                mode,
                size,
                log,
                mtu,
            },
        }),
        BlobMsg::TransferCancel { id } => Some(BlobRequest::TransferCancel { id }),
        BlobMsg::BlockStart { block, chunk_size } => Some(BlobRequest::BlockStart {
            block,
            chunk_size,
        }),
        BlobMsg::BlockGet => Some(BlobRequest::BlockGet),
        BlobMsg::ChunkTransfer { chunk, octets } => Some(BlobRequest::ChunkTransfer {
            chunk,
            octets,
        }),
        _ => None,
    }
}

#[inline(always)]
fn update_request<'a>(message: UpdMsg<'a>) -> Option<UpdateRequest<'a>>
    ensures { there update_request_of result ≡ update_request_in (update_view message.entry) }
{
    match message {
        UpdMsg::InformationGet { first, limit } => Some(UpdateRequest::InformationGet {
            first,
            limit,
        }),
        UpdMsg::MetadataCheck { index, metadata } => Some(UpdateRequest::MetadataCheck {
            index,
            metadata,
        }),
        UpdMsg::UpdateGet => Some(UpdateRequest::UpdateGet),
        UpdMsg::UpdateStart {
            ttl,
            base,
            id,
            index,
            metadata,
        } => Some(UpdateRequest::StartUpdate(UpdateStart {
            ttl,
            base,
            id,
            index,
            metadata,
        })),
        UpdMsg::UpdateCancel => Some(UpdateRequest::UpdateCancel),
        UpdMsg::UpdateApply => Some(UpdateRequest::UpdateApply),
        _ => None,
    }
}

fn blob_asked<'a>(payload: &'a [u8]) -> Option<Request<'a>>
    ensures { there request_of result ≡ request_in (message_at blob_rows payload.now) }
{
    match mu_blobmsg::read(payload) {
        Ok(message) => match blob_request(message) {
            Some(request) => Some(Request::Blob(request)),
            None => None,
        },
        Err(_) => None,
    }
}

fn update_asked<'a>(payload: &'a [u8]) -> Option<Request<'a>>
    ensures { there request_of result ≡ request_in (message_at update_rows payload.now) }
{
    match mu_updmsg::read(payload) {
        Ok(message) => match update_request(message) {
            Some(request) => Some(Request::Update(request)),
            None => None,
        },
        Err(_) => None,
    }
}

/// A node takes no message of the Firmware Distribution model.
#[inline(never)]
fn distribution_asked<'a>(payload: &'a [u8]) -> Option<Request<'a>>
    ensures { there request_of result ≡ request_in (message_at distribution_rows payload.now) }
{
    match mu_distmsg::read(payload) {
        Ok(_) => None,
        Err(_) => None,
    }
}

fn request_read<'a>(payload: &'a [u8]) -> Option<Request<'a>>
    ensures { there request_of result ≡ request_at payload.now }
{
    match part_of(payload) {
        Part::Blob => blob_asked(payload),
        Part::Update => update_asked(payload),
        Part::Distribution => distribution_asked(payload),
    }
}

/// What the octets of a payload ask of a node, if it takes such a message.
pub(crate) fn request_at<'a>(payload: &'a [u8]) -> Option<Request<'a>>
    ensures asks { there request_of result ≡ request_at payload.now }
    ensures fits { IfSome result (λ request. RequestFits (request_of request)) }
{
    octets_ask_in_range();
    request_read(payload)
}
