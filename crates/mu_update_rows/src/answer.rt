// Replies whose fields are in the ranges of the grammar.
ghost use Rattle.std.specs.Prelude.{◌≡◌};
ghost use Rattle.mu_update_rows.specs.Messages.{update_reply_of};
ghost use Rattle.mu_update_rows.specs.Fits.{UpdateReplyFits};

use crate::messages::UpdateReply;
use std::marker::Model;

/// A reply of a Firmware Update Server, with each field in its range.
#[derive(Drop)]
pub struct UpdateAnswer {
    reply: UpdateReply,
}

impl Model for UpdateAnswer {
    ghost use Rattle.mu_model_node.specs.UpdateMessages.{UpdateReply};
    ghost use Rattle.mu_update_rows.specs.Messages.{update_reply_of};
    ghost use Rattle.mu_update_rows.specs.Fits.{UpdateReplyFits};

    ghost Value = { UpdateReply };

    ghost view = { λ a. update_reply_of a.reply };

    ghost invariant = { λ a. UpdateReplyFits a.reply };
}

impl UpdateAnswer {
    /// A reply whose fields are in their ranges.
    pub fn new(reply: UpdateReply) -> UpdateAnswer
        requires { UpdateReplyFits reply }
        ensures { result ≡ update_reply_of reply }
    {
        UpdateAnswer { reply }
    }

    /// The reply.
    pub fn into_reply(self) -> UpdateReply
        ensures is { update_reply_of result ≡ self }
        ensures fits { UpdateReplyFits result }
    {
        self.reply
    }
}
