// What a message asks of a Firmware Update Server.
ghost use Rattle.std.specs.Prelude.{◌≡◌};
ghost use Rattle.mu_model_wire.specs.Reading.{message_at};
ghost use Rattle.mu_model_wire.specs.Update.{update_rows};
ghost use Rattle.mu_updmsg.specs.View.{view};
ghost use Rattle.mu_model_node.specs.NodeMessages.{request_of as asks, request_in};
ghost use Rattle.mu_update_rows.specs.Looks.{there};
ghost use Rattle.mu_update_answers.specs.Asked.{asked};

use mu_update_rows::{UpdateRequest, UpdateStart};
use mu_updmsg::{UpdMsg, read};

/// What a message asks of a Firmware Update Server: nothing exactly where a node passes the message over.
pub fn request_of<'a>(message: &UpdMsg<'a>) -> Option<UpdateRequest<'a>>
    ensures { there asked result ≡ asks (view message.now) }
{
    match message {
        UpdMsg::InformationGet { first, limit } => Some(UpdateRequest::InformationGet {
            first: *first,
            limit: *limit,
        }),
        UpdMsg::MetadataCheck { index, metadata } => Some(UpdateRequest::MetadataCheck {
            index: *index,
            metadata: *metadata,
        }),
        UpdMsg::UpdateGet => Some(UpdateRequest::UpdateGet),
        UpdMsg::UpdateStart {
            ttl,
            base,
            id,
            index,
            metadata,
        } => Some(UpdateRequest::StartUpdate(UpdateStart {
            ttl: *ttl,
            base: *base,
            id: *id,
            index: *index,
            metadata: *metadata,
        })),
        UpdMsg::UpdateCancel => Some(UpdateRequest::UpdateCancel),
        UpdMsg::UpdateApply => Some(UpdateRequest::UpdateApply),
        _ => None,
    }
}

/// What the octets of a payload ask of a Firmware Update Server, if they spell such a message.
pub fn request_at<'a>(payload: &'a [u8]) -> Option<UpdateRequest<'a>>
    ensures { there asked result ≡ request_in (message_at update_rows payload.now) }
{
    match read(payload) {
        Ok(message) => request_of(&message),
        Err(_) => None,
    }
}
