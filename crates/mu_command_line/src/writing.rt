// Writing pieces whole.
ghost use Rattle.std.specs.Prelude.{◌≡◌, ◌∷◌, [], codes, map, OnOk, OnErr};
ghost use Rattle.std.specs.List.{concat};
ghost use Rattle.mu_model_flash.specs.Cause.{HasCause};
ghost use Rattle.mu_model_script.specs.Texts.{refused_text, text_line};
ghost use Rattle.mu_command_line.specs.Writing.{Wrote, WroteSome};

use itoa::Buffer;
use mu_outside::{Failed, Sink};

/// Writes all of a piece. Where the sink fails, a beginning of it was written.
pub fn write_all<K: Sink>(sink: &mut K, bytes: &[u8]) -> Result<(), Failed>
    ensures ok { OnOk result (Wrote (K.written sink.old) (K.written sink.new) bytes.now) }
    ensures err { OnErr result (WroteSome (K.written sink.old) (K.written sink.new) bytes.now) }
    ensures cause { HasCause (K.faults sink.old) (K.faults sink.new) result }
{
    let mut done = 0;
    while done < bytes.len() {
        done += sink.write(&bytes[done..])?;
    }
    Ok(())
}

/// Writes all of some pieces, one after the other. Where the sink fails, a beginning of them was written.
pub fn write_pieces<K: Sink>(sink: &mut K, pieces: &[&[u8]]) -> Result<(), Failed>
    ensures ok { OnOk result (Wrote (K.written sink.old) (K.written sink.new) (concat (map (λ piece. piece.now) pieces.now))) }
    ensures err { OnErr result (WroteSome (K.written sink.old) (K.written sink.new) (concat (map (λ piece. piece.now) pieces.now))) }
    ensures cause { HasCause (K.faults sink.old) (K.faults sink.new) result }
{
    for piece in pieces {
        write_all(sink, piece)?;
    }
    Ok(())
}

/// Writes the line of a refusal, from its texts.
fn write_refusal_parts<K: Sink>(
    sink: &mut K,
    number: &[u8],
    place: &[u8],
    word: &[u8],
) -> Result<(), Failed>
    ensures ok { OnOk result (Wrote (K.written sink.old) (K.written sink.new) (text_line (codes "refused" ∷ number.now ∷ place.now ∷ word.now ∷ []))) }
    ensures err { OnErr result (WroteSome (K.written sink.old) (K.written sink.new) (text_line (codes "refused" ∷ number.now ∷ place.now ∷ word.now ∷ []))) }
    ensures cause { HasCause (K.faults sink.old) (K.faults sink.new) result }
{
    let pieces = [
        b"refused ".as_slice(),
        number,
        b" ",
        place,
        b" ",
        word,
        b"\n",
    ];
    write_pieces(sink, &pieces)
}

/// Writes the line of a refusal: the line's number from 1, or 0 where there are no lines, the place, and the word for why.
pub fn write_refusal<K: Sink>(
    sink: &mut K,
    number: u32,
    place: u32,
    word: &[u8],
) -> Result<(), Failed>
    ensures ok { OnOk result (Wrote (K.written sink.old) (K.written sink.new) (refused_text number place word.now)) }
    ensures err { OnErr result (WroteSome (K.written sink.old) (K.written sink.new) (refused_text number place word.now)) }
    ensures cause { HasCause (K.faults sink.old) (K.faults sink.new) result }
{
    let mut number_buffer = Buffer::new();
    let mut place_buffer = Buffer::new();
    let number = number_buffer.format(number).as_bytes();
    let place = place_buffer.format(place).as_bytes();
    write_refusal_parts(sink, number, place, word)
}
