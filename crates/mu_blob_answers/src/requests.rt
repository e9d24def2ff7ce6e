// What a message asks of a BLOB Transfer Server.
ghost use Rattle.std.specs.Prelude.{◌≡◌, IfSome};
ghost use Rattle.mu_model_wire.specs.Spelling.{Fits};
ghost use Rattle.mu_model_wire.specs.Blob.{blob_rows};
ghost use Rattle.mu_blobmsg.specs.View.{view};
ghost use Rattle.mu_model_node.specs.BlobMessages.{blob_request_of as request_in};
ghost use Rattle.mu_model_node.specs.Sound.{BlobRequestFits};
ghost use Rattle.mu_blob_rows.specs.Sessions.{there};
ghost use Rattle.mu_blob_answers.specs.Messages.{blob_request_of};

use crate::messages::BlobRequest;
use mu_blobmsg::BlobMsg;
use mu_model_node::Parameters;

/// What a message asks of a BLOB Transfer Server, if it takes such a message.
pub fn request_of<'a>(message: &'a BlobMsg<'a>) -> Option<BlobRequest<'a>>
    requires { Fits blob_rows (view message.now) }
    ensures asks { there blob_request_of result ≡ request_in (view message.now) }
    ensures fits { IfSome result (λ request. BlobRequestFits (blob_request_of request)) }
{
    match message {
        BlobMsg::BlobInformationGet => Some(BlobRequest::BlobInformationGet),
        BlobMsg::TransferGet => Some(BlobRequest::TransferGet),
        BlobMsg::TransferStart {
            mode,
            id,
            size,
            log,
            mtu,
        } => Some(BlobRequest::TransferStart {
            id: *id,
            parameters: Parameters {
                mode: *mode,
                size: *size,
                log: *log,
                mtu: *mtu,
            },
        }),
        BlobMsg::TransferCancel { id } => Some(BlobRequest::TransferCancel { id: *id }),
        BlobMsg::BlockStart { block, chunk_size } => Some(BlobRequest::BlockStart {
            block: *block,
            chunk_size: *chunk_size,
        }),
        BlobMsg::BlockGet => Some(BlobRequest::BlockGet),
        BlobMsg::ChunkTransfer { chunk, octets } => Some(BlobRequest::ChunkTransfer {
            chunk: *chunk,
            octets: *octets,
        }),
        _ => None,
    }
}
