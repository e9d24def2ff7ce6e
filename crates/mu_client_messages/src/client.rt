// A client over messages and packets.
ghost use Rattle.std.specs.Prelude.{◌≡◌, [], map, IsTrue, IfSome, OnOk, OnErr};
ghost use Rattle.mu_codec.specs.View.{packet_of};
ghost use Rattle.mu_model_wire.specs.Spelling.{Fits};
ghost use Rattle.mu_model_wire.specs.Blob.{blob_rows};
ghost use Rattle.mu_model_wire.specs.Update.{update_rows};
ghost use Rattle.mu_blobmsg.specs.View.{view as blob_view};
ghost use Rattle.mu_updmsg.specs.View.{view as update_view};
ghost use Rattle.mu_model_flash.specs.Cause.{HasCause};
ghost use Rattle.mu_model_client.specs.Answers.{answer_of};
ghost use Rattle.mu_model_client.specs.Due.{due};
ghost use Rattle.mu_model_client.specs.Going.{going};
ghost use Rattle.mu_model_client.specs.Packets.{answer_handled, request_packet};
ghost use Rattle.mu_receivers.specs.Image.{Image, IsSame};
ghost use Rattle.mu_rounds.specs.Rounds.{client_of, HasShape};
ghost use Rattle.mu_rounds.specs.Time.{HasSize};
ghost use Rattle.mu_client_messages.specs.Messages.{HasMode, IsWhole};

use crate::reading::{blob_heard, update_heard};
use crate::sending::send_all;
use arrayvec::ArrayVec;
use mu_blobmsg::BlobMsg;
use mu_codec::Outbox;
use mu_model_flash::Failed;
use mu_receivers::ImageBytes;
use mu_rounds::Rounds;
use mu_updmsg::UpdMsg;

/// A BLOB Transfer message from this address at this moment, in milliseconds. One that a client doesn't take hands in its moment
/// alone.
pub fn on_blob(rounds: &mut Rounds, from: u16, msg: &BlobMsg, now: u64)
    requires whole { IsWhole rounds.old }
    requires fits { Fits blob_rows (blob_view msg.now) }
    ensures next { client_of rounds.new ≡ (answer_handled (client_of rounds.old) from now (answer_of (blob_view msg.now))).next }
    ensures whole { IsWhole rounds.new }
    ensures sending { rounds.new.sending ≡ rounds.old.sending }
{
    match blob_heard(msg) {
        Some(heard) => rounds.on_heard(from, &heard, now),
        None => rounds.pass_to(now),
    }
}

/// A Firmware Update message from this address at this moment, in milliseconds. One that a client doesn't take hands in its moment
/// alone.
pub fn on_update(rounds: &mut Rounds, from: u16, msg: &UpdMsg, now: u64)
    requires whole { IsWhole rounds.old }
    requires fits { Fits update_rows (update_view msg.now) }
    ensures next { client_of rounds.new ≡ (answer_handled (client_of rounds.old) from now (answer_of (update_view msg.now))).next }
    ensures whole { IsWhole rounds.new }
    ensures sending { rounds.new.sending ≡ rounds.old.sending }
{
    match update_heard(msg) {
        Some(heard) => rounds.on_heard(from, &heard, now),
        None => rounds.pass_to(now),
    }
}

/// A time event at this moment, in milliseconds: at most 16 packets are sent, into an outbox that is empty. Where a read of the
/// image fails the client is as before, and nothing is sent.
pub fn on_time<I: ImageBytes>(
    rounds: &mut Rounds,
    image: &mut I,
    now: u64,
    out: &mut Outbox,
) -> Result<(), Failed>
    requires whole { IsWhole rounds.old }
    requires size { HasSize rounds.old.sending (I.image image.old) }
    requires empty { out.old.items ≡ [] }
    ensures next { OnOk result (client_of rounds.new ≡ (going (client_of rounds.old) now).next) }
    ensures packets { OnOk result (IfSome (I.image image.old).octets (λ octets. map packet_of out.new.items ≡ map (request_packet rounds.old.sending.from) (due (client_of rounds.old) octets now).packets)) }
    ensures before { OnErr result (client_of rounds.new ≡ client_of rounds.old) }
    ensures nothing { OnErr result (out.new.items ≡ []) }
    ensures whole { IsWhole rounds.new }
    ensures sending { rounds.new.sending ≡ rounds.old.sending }
    ensures same { IsSame (I.image image.old) (I.image image.new) }
    ensures fails { OnErr result (IsTrue (I.image image.old).can_fail) }
    ensures cause { HasCause (I.image image.old).faults (I.image image.new).faults result }
    ensures stays { I.stays image.old image.new }
{
    let mut sents = ArrayVec::new();
    rounds.on_time(image, now, &mut sents)?;
    send_all(&rounds.sending, &rounds.purpose, sents.as_slice(), out);
    Ok(())
}
