// The command.
ghost use Rattle.std.specs.Prelude.{◌≡◌, ◌≢◌, ◌≤◌, ◌∷◌, [], codes, OnOk, OnErr};
ghost use Rattle.mu_input.specs.Reading.{WhereTold};
ghost use Rattle.mu_model_flash.specs.Cause.{HasCause, Rose};
ghost use Rattle.mu_model_script.specs.Texts.{text_line};
ghost use Rattle.mu_command_line.specs.Writing.{Wrote, WroteSome};
ghost use Rattle.mu_format.specs.declared.making.Kind.TheVariants.{Distributor};
ghost use Rattle.mu_format.specs.Formats.{pages_of, refusal_of, formatted_text, printed_of, FormatTold, CanEnd, EndsBy, Makes};

use crate::making::{Format, Made, make};
use itoa::Buffer;
use mu_command_line::{Status, write_pieces, write_refusal};
use mu_outside::{Failed, Flash, Sink, Source};

/// How the command has ended, and the flash that was handed in.
#[derive(Drop)]
pub struct Formatted<F> {
    pub status: Status,
    pub flash: F,
}

// Writes the line of a flash that was made, from its number of pages.
fn write_formatted<K: Sink>(pages: &[u8], sink: &mut K) -> Result<(), Failed>
    ensures ok { OnOk result (Wrote (K.written sink.old) (K.written sink.new) (text_line (codes "formatted" ∷ pages.now ∷ []))) }
    ensures err { OnErr result (WroteSome (K.written sink.old) (K.written sink.new) (text_line (codes "formatted" ∷ pages.now ∷ []))) }
    ensures cause { HasCause (K.faults sink.old) (K.faults sink.new) result }
{
    let pieces = [b"formatted ".as_slice(), pages, b"\n"];
    write_pieces(sink, &pieces)
}

// Writes what came of it, on a flash of so many pages. After a fault nothing is written.
fn write_made<K: Sink>(made: Made, pages: u32, sink: &mut K) -> Result<(), Failed>
    ensures ok { OnOk result (Wrote (K.written sink.old) (K.written sink.new) (printed_of pages made)) }
    ensures err { OnErr result (WroteSome (K.written sink.old) (K.written sink.new) (printed_of pages made)) }
    ensures cause { HasCause (K.faults sink.old) (K.faults sink.new) result }
    ensures source { made ≡ Made.Source → OnErr result ⊥ }
    ensures flash { made ≡ Made.Flash → OnErr result ⊥ }
{
    match made {
        Made::Whole => {
            let mut buffer = Buffer::new();
            write_formatted(buffer.format(pages).as_bytes(), sink)
        }
        Made::Pages => write_refusal(sink, 0, 0, b"value"),
        Made::Short(place) => write_refusal(sink, 0, place, b"short"),
        Made::Long(place) => write_refusal(sink, 0, place, b"long"),
        Made::Source => Ok(()),
        Made::Flash => Ok(()),
    }
}

/// Makes a flash the flash of a new node, from the image that the source gives, or of a new distributor, and writes the number of its pages to the sink. A bank has 1..256
/// pages. A flash with another number of pages than that of what is asked for is refused at place 0, before anything is read or written on it; an
/// empty image at place 0, and one that is larger than a bank at the place of its first octet past that. Of a cut within it nothing is promised.
pub fn format<F: Flash, S: Source, K: Sink>(
    what: Format,
    flash: F,
    source: &mut S,
    sink: &mut K,
) -> Formatted<F>
    requires pages_least { 1 ≤ what.pages }
    requires pages_most { what.pages ≤ 256 }
    ensures ends { FormatTold what (F.seen flash).pages (S.left source.old) (S.left source.new) (K.written sink.old) (K.written sink.new) result.status }
    ensures can { CanEnd result.status }
    ensures makes { result.status ≡ Status.Done → Makes what (S.left source.old) (S.left source.new) (F.seen flash) (F.seen result.flash) }
    ensures pages { (F.seen flash).pages ≢ pages_of what → (result.flash ≡ flash) × (source.new ≡ source.old) × (result.status ≢ Status.Done) }
    ensures unread { what.kind ≡ Distributor → source.new ≡ source.old }
    ensures complete { (Rose (S.faults source.old) (S.faults source.new) → ⊥) → (Rose (K.faults sink.old) (K.faults sink.new) → ⊥) → (Rose (F.seen flash).faults (F.seen result.flash).faults → ⊥)
        → WhereTold (S.left source.old) (S.left source.new) (λ held left. EndsBy (refusal_of what (F.seen flash).pages held) result.status) }
    ensures source { result.status ≡ Status.SourceFault → Rose (S.faults source.old) (S.faults source.new) }
    ensures sink { result.status ≡ Status.SinkFault → Rose (K.faults sink.old) (K.faults sink.new) }
    ensures flash { result.status ≡ Status.FlashFault → Rose (F.seen flash).faults (F.seen result.flash).faults }
{
    let pages = flash.pages();
    let (flash, made) = make(what, flash, source);
    let status = match write_made(made, pages, sink) {
        Ok(()) => made.status(),
        Err(_) => Status::SinkFault,
    };
    Formatted { status, flash }
}
