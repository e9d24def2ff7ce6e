ghost use Rattle.std.specs.Prelude.{◌≡◌, IfOk};
ghost use Rattle.mu_model_wire.specs.Reading.{Gives, message_at};
ghost use Rattle.mu_model_wire.specs.Table.{rows};
ghost use Rattle.mu_access.specs.View.{view, InRange};
ghost use Rattle.mu_access.specs.Parts.{rows_of};

use crate::message::Message;
use mu_codec::{Cursor, Refusal};

/// The message that the octets spell, or the first place where they spell none.
pub fn read<'a>(bytes: &'a [u8]) -> Result<Message<'a>, Refusal>
    // What the octets are by the rows of the grammar: this message, or this refusal.
    ensures exact { Gives view result (message_at rows bytes.now) }
    // What is read can be written.
    ensures fits { IfOk result (λ m. InRange m) }
{
    match part_of(bytes) {
        Part::Blob => match mu_blobmsg::read(bytes) {
            Ok(message) => Ok(Message::Blob(message)),
            Err(refusal) => Err(refusal),
        },
        Part::Update => match mu_updmsg::read(bytes) {
            Ok(message) => Ok(Message::Upd(message)),
            Err(refusal) => Err(refusal),
        },
        Part::Distribution => match mu_distmsg::read(bytes) {
            Ok(message) => Ok(Message::Dist(message)),
            Err(refusal) => Err(refusal),
        },
    }
}

/// A part of the grammar: the rows of one model.
#[derive(Clone, Copy, Debug, PartialEq, Eq)]
pub enum Part {
    /// Of the BLOB Transfer model.
    Blob,
    /// Of the Firmware Update model.
    Update,
    /// Of the Firmware Distribution model.
    Distribution,
}

/// The part that decides what the octets are: that of the opcode's row. Where there is none, or there are more than 380 octets, every
/// part refuses them.
pub fn part_of(bytes: &[u8]) -> Part
    ensures { message_at rows bytes.now ≡ message_at (rows_of result) bytes.now }
{
    if bytes.len() > 380 {
        return Part::Blob;
    }
    match Cursor::new(bytes).opcode() {
        Ok(0x8308..=0x8310) => Part::Update,
        Ok(0x8311..=0x8327) => Part::Distribution,
        _ => Part::Blob,
    }
}
