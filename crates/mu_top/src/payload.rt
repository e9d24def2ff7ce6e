// A line that holds a payload.
ghost use Rattle.std.specs.Prelude.{◌≡◌, ◌≤◌, length, None, Some, Ok, Err, codes, if◌then◌else◌};
ghost use Rattle.hex.specs.Hex.{decode_of, is_hex_digit};
ghost use Rattle.mu_model_script.specs.Lines.{is_silent};
ghost use Rattle.mu_top.specs.PayloadDone.{GivesOctets, Stopped};
ghost use Rattle.mu_top.specs.Payloads.{bad_hex, first_bad_digit, why_word};

use crate::work::LineStop;
use mu_codec::Refusal;
use mu_model_wire::Why;

fn is_digit(octet: u8) -> bool
    ensures { result ≡ is_hex_digit octet }
{
    matches!(octet, b'0'..=b'9' | b'A'..=b'F' | b'a'..=b'f')
}

/// The place at which hexadecimal is wrong, if it is.
fn bad_place(text: &[u8]) -> Option<u16>
    requires { length text.now ≤ 4096 }
    ensures { result ≡ bad_hex text.now }
{
    for (place, octet) in text.iter().enumerate() {
        if !is_digit(*octet) {
            return Some(place as u16);
        }
    }
    if text.len() % 2 == 1 {
        return Some(text.len() as u16);
    }
    None
}

/// The word for why a payload is refused.
fn why_word(why: Why) -> &'static [u8]
    ensures { result.now ≡ why_word why }
{
    match why {
        Why::Opcode => b"opcode",
        Why::Short => b"short",
        Why::Value => b"value",
        Why::Long => b"long",
    }
}

/// The octets of a text of hexadecimal, or the place at which it is wrong.
pub(crate) fn octets_of<'a>(text: &[u8], room: &'a mut [u8; 2048]) -> Result<&'a [u8], u16>
    requires { length text.now ≤ 4096 }
    ensures { GivesOctets result text.now }
{
    if let Some(place) = bad_place(text) {
        return Err(place);
    }
    let octets = &mut room[..text.len() / 2];
    match hex::decode_to_slice(text, octets) {
        Ok(()) => {}
        Err(_) => prove!(false),
    }
    Ok(octets)
}

/// Whether a line says nothing: it is empty or a comment.
pub(crate) fn is_silent(line: &[u8]) -> bool
    ensures { result ≡ is_silent line.now }
{
    line.is_empty() || line[0] == b'#'
}

/// Why a payload is refused, as a line is.
pub(crate) fn refused(refusal: Refusal) -> LineStop
    ensures { Stopped result refusal }
{
    LineStop::Refused {
        place: refusal.at,
        word: why_word(refusal.why),
    }
}
