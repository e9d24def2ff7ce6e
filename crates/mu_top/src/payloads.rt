// Printing payloads.
ghost use Rattle.std.specs.Prelude.{◌≡◌, ◌≢◌, ◌≤◌, ◌++◌, ◌∷◌, [], length, IfErr, OnOk, OnErr};
ghost use Rattle.hex.specs.Hex.{encode_lower};
ghost use Rattle.mu_model_script.specs.Pieces.{line_feed};
ghost use Rattle.mu_command_line.specs.Writing.{Wrote, WroteSome};
ghost use Rattle.mu_model_wire.specs.Reading.{message_at};
ghost use Rattle.mu_model_wire.specs.Table.{rows};
ghost use Rattle.mu_model_flash.specs.Cause.{HasCause, Rose};
ghost use Rattle.mu_model_script.specs.Limits.{most_octets};
ghost use Rattle.mu_top.specs.Ends.{Completes, Ends};
ghost use Rattle.mu_top.specs.PayloadDone.{PrintsRead};
ghost use Rattle.mu_top.specs.Payloads.{BarsPayload, DoesPayload, PayloadsEnd, WearsPayload};

use crate::payload::{is_silent, octets_of, refused};
use crate::work::{LineStop, LineWork, run};
use mu_access::{canonical, show_octets};
use mu_command_line::{Status, write_pieces};
use mu_outside::{Failed, Sink, Source};

/// As many lines as octets: no limit beside that on octets.
const MOST_LINES: u32 = 16_777_216;

/// What is printed of each payload.
#[derive(Clone, Copy, Debug, PartialEq, Eq)]
pub(crate) enum PayloadText {
    /// Its canonical octets, in hexadecimal.
    Canonical,
    /// The name and the fields of its message.
    Shown,
}

impl LineWork for PayloadText {
    ghost use Rattle.std.specs.Prelude.{◌≡◌, ◌≤◌, ◌<◌, length, OnOk, IfErr};
    ghost use Rattle.std.proofs.lemmas.Bool.{lt-ltb};
    ghost use Rattle.std.proofs.Common.{refl};
    ghost use Rattle.mu_model_flash.specs.Cause.{Rose};
    ghost use Rattle.mu_top.specs.LineDone.{DidLine, StopsLine};
    ghost use Rattle.mu_model_script.specs.Limits.{most_octets};
    ghost use Rattle.mu_top.specs.Payloads.{BarsPayload, DoesPayload, WearsPayload};

    ghost does = { DoesPayload };

    ghost bars = { BarsPayload };

    ghost wears = { WearsPayload };

    ghost grows = { λ _. ⊥ };

    ghost most = { most_octets };

    ghost goes_on = { λ _ _. Unit {0} };

    ghost too_long = { λ state line long. rw (lt-ltb 4096 (length line) long) refl };

    fn do_line<K: Sink>(&mut self, line: &[u8], sink: &mut K) -> Result<(), LineStop> {
        if is_silent(line) {
            return Ok(());
        }
        let mut room = [0; 2048];
        match octets_of(line, &mut room) {
            Ok(octets) => print(*self, octets, sink),
            Err(place) => Err(LineStop::Refused {
                place,
                word: b"hex",
            }),
        }
    }
}

/// Prints the message that the octets spell.
fn print<K: Sink>(text: PayloadText, octets: &[u8], sink: &mut K) -> Result<(), LineStop>
    ensures prints { PrintsRead text (message_at rows octets.now) (K.written sink.old) (K.written sink.new) result }
    ensures failed { IfErr result (λ stop. stop ≡ LineStop.Sink → Rose (K.faults sink.old) (K.faults sink.new)) }
    ensures later { K.faults sink.old ≤ K.faults sink.new }
{
    match text {
        PayloadText::Canonical => print_canonical(octets, sink),
        PayloadText::Shown => print_shown(octets, sink),
    }
}

fn print_canonical<K: Sink>(octets: &[u8], sink: &mut K) -> Result<(), LineStop>
    ensures prints { PrintsRead PayloadText.Canonical (message_at rows octets.now) (K.written sink.old) (K.written sink.new) result }
    ensures failed { IfErr result (λ stop. stop ≡ LineStop.Sink → Rose (K.faults sink.old) (K.faults sink.new)) }
    ensures later { K.faults sink.old ≤ K.faults sink.new }
{
    match canonical(octets) {
        Ok(payload) => match write_octets(sink, payload.as_slice()) {
            Ok(()) => Ok(()),
            Err(_) => Err(LineStop::Sink),
        },
        Err(refusal) => Err(refused(refusal)),
    }
}

fn print_shown<K: Sink>(octets: &[u8], sink: &mut K) -> Result<(), LineStop>
    ensures prints { PrintsRead PayloadText.Shown (message_at rows octets.now) (K.written sink.old) (K.written sink.new) result }
    ensures failed { IfErr result (λ stop. stop ≡ LineStop.Sink → Rose (K.faults sink.old) (K.faults sink.new)) }
    ensures later { K.faults sink.old ≤ K.faults sink.new }
{
    match show_octets(octets, sink) {
        Ok(Ok(())) => Ok(()),
        Ok(Err(_)) => Err(LineStop::Sink),
        Err(refusal) => Err(refused(refusal)),
    }
}

/// Writes a line of at most 380 octets in hexadecimal.
fn write_octets<K: Sink>(sink: &mut K, octets: &[u8]) -> Result<(), Failed>
    requires { length octets.now ≤ 380 }
    ensures ok { OnOk result (Wrote (K.written sink.old) (K.written sink.new) (encode_lower octets.now ++ line_feed ∷ [])) }
    ensures err { OnErr result (WroteSome (K.written sink.old) (K.written sink.new) (encode_lower octets.now ++ line_feed ∷ [])) }
    ensures cause { HasCause (K.faults sink.old) (K.faults sink.new) result }
{
    let mut room = [0; 760];
    let digits = &mut room[..2 * octets.len()];
    if hex::encode_to_slice(octets, digits).is_err() {
        prove!(false);
    }
    write_pieces(sink, &[digits, b"\n"])
}

/// Prints the payloads that the source gives, line by line.
pub(crate) fn print_payloads<S: Source, K: Sink>(
    text: PayloadText,
    source: &mut S,
    sink: &mut K,
) -> Status
    ensures ends { Ends DoesPayload BarsPayload WearsPayload text most_octets (S.left source.old) (S.left source.new) (K.written sink.old) (K.written sink.new) result }
    ensures complete { (Rose (S.faults source.old) (S.faults source.new) → ⊥) → (Rose (K.faults sink.old) (K.faults sink.new) → ⊥)
        → Completes (PayloadsEnd text) (S.left source.old) (S.left source.new) (K.written sink.old) (K.written sink.new) result }
    ensures source { result ≡ Status.SourceFault → Rose (S.faults source.old) (S.faults source.new) }
    ensures sink { result ≡ Status.SinkFault → Rose (K.faults sink.old) (K.faults sink.new) }
    ensures memory { result ≢ Status.NoMemory }
    ensures command { result ≢ Status.Usage }
{
    let mut text = text;
    run(&mut text, MOST_LINES, source, sink)
}
