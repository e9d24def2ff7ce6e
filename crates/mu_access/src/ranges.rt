ghost use Rattle.std.specs.Prelude.{◌↔◌, IsTrue};
ghost use Rattle.mu_access.specs.View.{InRange};

use crate::message::Message;

/// Whether each field is in its range, those of some cases alone are there in these alone, no progress is odd, and the
/// message has at most 380 octets.
pub fn in_range(msg: &Message) -> bool
    ensures { IsTrue result ↔ InRange msg.now }
{
    match msg {
        Message::Blob(blob) => mu_blobmsg::in_range(blob),
        Message::Upd(update) => mu_updmsg::in_range(update),
        Message::Dist(distribution) => mu_distmsg::in_range(distribution),
    }
}
