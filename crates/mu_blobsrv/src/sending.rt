// What a row answers, as a packet.
ghost use Rattle.std.specs.Prelude.{◌≡◌, [], map};
ghost use Rattle.mu_codec.specs.View.{packet_of};
ghost use Rattle.mu_blobsrv.specs.Replies.{packets_of, replies_of};

use mu_blob_answers::{BlobAnswer, send};
use mu_codec::Outbox;

/// Sends what a row answers, if it answers, from an address. The outbox is empty.
pub(crate) fn reply(me: u16, answer: Option<(u16, BlobAnswer)>, out: &mut Outbox)
    requires { out.old.items ≡ [] }
    ensures { map packet_of out.new.items ≡ packets_of me (replies_of answer) }
{
    if let Some((to, answer)) = answer {
        send(me, to, answer, out);
    }
}
