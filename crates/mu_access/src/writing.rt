ghost use Rattle.std.specs.Prelude.{◌≡◌, Ok};
ghost use Rattle.mu_model_wire.specs.Blob.{blob_rows};
ghost use Rattle.mu_model_wire.specs.Distribution.{distribution_rows};
ghost use Rattle.mu_model_wire.specs.Reading.{Gives, message_at};
ghost use Rattle.mu_model_wire.specs.Spelling.{spelling};
ghost use Rattle.mu_model_wire.specs.Table.{rows};
ghost use Rattle.mu_model_wire.specs.Update.{update_rows};
ghost use Rattle.mu_access.specs.Read.{canonical_of};
ghost use Rattle.mu_access.specs.View.{view, InRange};

use crate::message::Message;
use crate::reading::{Part, part_of};
use mu_codec::{Payload, Refusal};
use mu_model_wire::laws::canonical_is_read;

/// The canonical octets of a message in range: its unused bits are 0.
pub fn write(msg: &Message) -> Payload
    requires { InRange msg.now }
    ensures spelled { result.items ≡ spelling rows (view msg.now) }
    // Reading them gives the message back.
    ensures again { message_at rows result.items ≡ Ok (view msg.now) }
{
    canonical_is_read();
    spelled(msg)
}

/// The canonical octets of the message that the octets spell, or the first place where they spell none. Each part of the grammar is read
/// by itself: a message of any model takes 3,000 octets.
pub fn canonical(bytes: &[u8]) -> Result<Payload, Refusal>
    ensures { Gives (λ payload. payload.items) result (canonical_of (message_at rows bytes.now)) }
{
    match part_of(bytes) {
        Part::Blob => blob_canonical(bytes),
        Part::Update => update_canonical(bytes),
        Part::Distribution => distribution_canonical(bytes),
    }
}

fn blob_canonical(bytes: &[u8]) -> Result<Payload, Refusal>
    ensures { Gives (λ payload. payload.items) result (canonical_of (message_at blob_rows bytes.now)) }
{
    match &mu_blobmsg::read(bytes) {
        Ok(message) => Ok(mu_blobmsg::write(message)),
        Err(refusal) => Err(*refusal),
    }
}

fn update_canonical(bytes: &[u8]) -> Result<Payload, Refusal>
    ensures { Gives (λ payload. payload.items) result (canonical_of (message_at update_rows bytes.now)) }
{
    match &mu_updmsg::read(bytes) {
        Ok(message) => Ok(mu_updmsg::write(message)),
        Err(refusal) => Err(*refusal),
    }
}

fn distribution_canonical(bytes: &[u8]) -> Result<Payload, Refusal>
    ensures { Gives (λ payload. payload.items) result (canonical_of (message_at distribution_rows bytes.now)) }
{
    match &mu_distmsg::read(bytes) {
        Ok(message) => Ok(mu_distmsg::write(message)),
        Err(refusal) => Err(*refusal),
    }
}

fn spelled(msg: &Message) -> Payload
    requires { InRange msg.now }
    ensures { result.items ≡ spelling rows (view msg.now) }
{
    match msg {
        Message::Blob(blob) => mu_blobmsg::write(blob),
        Message::Upd(update) => mu_updmsg::write(update),
        Message::Dist(distribution) => mu_distmsg::write(distribution),
    }
}
