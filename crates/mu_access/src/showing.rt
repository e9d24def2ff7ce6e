ghost use Rattle.std.specs.Prelude.{◌≡◌, Err, IfErr, IfOk, OnOk, OnErr};
ghost use Rattle.mu_model_flash.specs.Cause.{HasCause};
ghost use Rattle.mu_shown.specs.Lines.{shown_line};
ghost use Rattle.mu_shown.specs.Written.{Wrote, WroteSome, Writes};
ghost use Rattle.mu_model_wire.specs.Reading.{message_at};
ghost use Rattle.mu_model_wire.specs.Table.{rows};
ghost use Rattle.mu_access.specs.Read.{ShowsRead};
ghost use Rattle.mu_access.specs.View.{view};

use crate::message::Message;
use crate::reading::{Part, part_of};
use mu_codec::Refusal;
use mu_outside::{Failed, Sink};
use mu_shown::{show_blob, show_distribution, show_update};

/// Writes the line that shows a message, with its end: the message's name, then a blank, a name, an equals sign and a
/// value for each field that is there, in the order of the grammar.
pub fn show<K: Sink>(msg: &Message, sink: &mut K) -> Result<(), Failed>
    // All of the line was appended.
    ensures ok { OnOk result (Wrote (K.written sink.old) (K.written sink.new) (shown_line (view msg.now))) }
    // A beginning of the line was appended.
    ensures err { OnErr result (WroteSome (K.written sink.old) (K.written sink.new) (shown_line (view msg.now))) }
    // It fails only where a call of the sink failed.
    ensures cause { HasCause (K.faults sink.old) (K.faults sink.new) result }
{
    show_of_its_model(msg, sink)
}

fn show_of_its_model<K: Sink>(msg: &Message, sink: &mut K) -> Result<(), Failed>
    ensures { Writes (K.written sink.old) (K.written sink.new) (K.faults sink.old) (K.faults sink.new) result (shown_line (view msg.now)) }
{
    match msg {
        Message::Blob(message) => show_blob(message, sink),
        Message::Upd(message) => show_update(message, sink),
        Message::Dist(message) => show_distribution(message, sink),
    }
}

/// Writes the line that shows the message that the octets spell, or writes nothing and answers the first place where they spell none.
pub fn show_octets<K: Sink>(bytes: &[u8], sink: &mut K) -> Result<Result<(), Failed>, Refusal>
    ensures shown { IfOk result (λ shown. ShowsRead (K.written sink.old) (K.written sink.new) (K.faults sink.old) (K.faults sink.new) shown (message_at rows bytes.now)) }
    ensures refused { IfErr result (λ refusal. message_at rows bytes.now ≡ Err refusal) }
    ensures same { OnErr result (sink.new ≡ sink.old) }
{
    match part_of(bytes) {
        Part::Blob => match &mu_blobmsg::read(bytes) {
            Ok(message) => Ok(show_blob(message, sink)),
            Err(refusal) => Err(*refusal),
        },
        Part::Update => match &mu_updmsg::read(bytes) {
            Ok(message) => Ok(show_update(message, sink)),
            Err(refusal) => Err(*refusal),
        },
        Part::Distribution => match &mu_distmsg::read(bytes) {
            Ok(message) => Ok(show_distribution(message, sink)),
            Err(refusal) => Err(*refusal),
        },
    }
}
