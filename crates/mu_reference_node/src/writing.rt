// The octets of what a node answers.
ghost use Rattle.std.specs.Prelude.{◌≡◌};
ghost use Rattle.mu_model_node.specs.NodeMessages.{reply_octets};
ghost use Rattle.mu_reference.specs.NodeRows.{reply_of};

use mu_codec::Payload;
use mu_reference::Reply;

/// The octets of what a node answers.
pub(crate) fn octets_of(reply: Reply) -> Payload
    ensures { result.items ≡ reply_octets (reply_of reply) }
{
    match reply {
        Reply::Updating(answer) => mu_update_answers::octets_of(answer),
        Reply::Serving(answer) => mu_blob_answers::octets_of(answer),
    }
}
