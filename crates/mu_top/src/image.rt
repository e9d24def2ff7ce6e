// Printing what an image is.
ghost use Rattle.std.specs.Prelude.{◌≡◌, ◌≢◌, ◌≤◌, ◌*◌, ℕ, List, [], length, IfOk, OnOk, OnErr};
ghost use Rattle.hex.specs.Hex.{encode_lower};
ghost use Rattle.mu_image.specs.Digests.{HasTaken};
ghost use Rattle.mu_model_flash.specs.Cause.{HasCause, Rose};
ghost use Rattle.mu_top.specs.Images.{ImageTold, IsStatusOf, ReadAs, image_refusal, meta_text, parts_text, read_printed};
ghost use Rattle.mu_input.specs.Reading.{WhereTold};
ghost use Rattle.mu_command_line.specs.Writing.{Wrote, WroteSome};

use itoa::Buffer;
use mu_command_line::{Status, write_pieces, write_refusal};
use mu_image::{Digesting, Meta, fwid_of, meta_octets};
use mu_outside::{Failed, Sink, Source};

/// The most octets of an image.
const MOST_OCTETS: u32 = 1_048_576;

/// The octets that are read at once.
const PIECE: usize = 4096;

/// The company of all Firmware IDs that this product makes (this profile).
const OWN_COMPANY: u16 = 0xFFFF;

/// What was read of an image.
#[derive(Clone, Copy)]
pub(crate) enum ImageRead {
    /// All of it.
    Whole(Meta),
    /// There is no octet.
    Empty,
    /// It has more octets than an image may have.
    TooLarge,
}

impl ImageRead {
    ghost use Rattle.std.specs.Prelude.{◌≡◌};
    ghost use Rattle.mu_top.specs.Images.{read_status};

    /// How the command ends that has printed it.
    fn status(self) -> Status
        ensures { result ≡ read_status self }
    {
        match self {
            ImageRead::Whole(_) => Status::Done,
            ImageRead::Empty => Status::Refused,
            ImageRead::TooLarge => Status::Refused,
        }
    }
}

/// An image that was read to its end, of so many octets.
fn whole(version: u32, size: u32, digesting: Digesting) -> ImageRead
    requires { size ≤ 1048576 }
    ensures { (octets : List ℕ) → HasTaken digesting octets → length octets ≡ size → ReadAs version octets [] result }
{
    if size == 0 {
        return ImageRead::Empty;
    }
    ImageRead::Whole(Meta {
        size,
        version,
        digest: digesting.done(),
    })
}

/// Reads an image of a version to its end, or to the first piece that passes its limit.
fn read_image<S: Source>(version: u32, source: &mut S) -> Result<ImageRead, Failed>
    ensures read { IfOk result (λ read. WhereTold (S.left source.old) (S.left source.new) (λ held left. ReadAs version held left read)) }
    ensures told { OnErr result (WhereTold (S.left source.old) (S.left source.new) (λ held left. Unit {0})) }
    ensures cause { HasCause (S.faults source.old) (S.faults source.new) result }
{
    let mut digesting = Digesting::new();
    let mut piece = [0; PIECE];
    let mut size: u32 = 0;
    while size <= MOST_OCTETS {
        let count = source.read(&mut piece)?;
        if count == 0 {
            return Ok(whole(version, size, digesting));
        }
        digesting.take(&piece[..count]);
        size += count as u32;
    }
    Ok(ImageRead::TooLarge)
}

/// Prints the parts of an image's metadata, in three lines.
fn print_parts<K: Sink>(
    size: &[u8],
    version: &[u8],
    digest: &[u8],
    metadata: &[u8],
    id: &[u8],
    sink: &mut K,
) -> Result<(), Failed>
    ensures ok { OnOk result (Wrote (K.written sink.old) (K.written sink.new) (parts_text size.now version.now digest.now metadata.now id.now)) }
    ensures err { OnErr result (WroteSome (K.written sink.old) (K.written sink.new) (parts_text size.now version.now digest.now metadata.now id.now)) }
    ensures cause { HasCause (K.faults sink.old) (K.faults sink.new) result }
{
    let pieces = [
        b"size ".as_slice(),
        size,
        b" version ",
        version,
        b" digest ",
        digest,
        b"\nmetadata ",
        metadata,
        b"\nid ",
        id,
        b"\n",
    ];
    write_pieces(sink, &pieces)
}

/// Prints an image's size, version and digest, its metadata and its Firmware ID, in three lines.
fn print_meta<K: Sink>(meta: &Meta, sink: &mut K) -> Result<(), Failed>
    ensures ok { OnOk result (Wrote (K.written sink.old) (K.written sink.new) (meta_text meta.now)) }
    ensures err { OnErr result (WroteSome (K.written sink.old) (K.written sink.new) (meta_text meta.now)) }
    ensures cause { HasCause (K.faults sink.old) (K.faults sink.new) result }
{
    let mut size = Buffer::new();
    let mut version = Buffer::new();
    let mut digest = [0; 64];
    let mut metadata = [0; 80];
    let mut id = [0; 76];
    encode(&meta.digest, &mut digest);
    encode(&meta_octets(meta), &mut metadata);
    encode(fwid_of(OWN_COMPANY, meta).as_slice(), &mut id);
    let size = size.format(meta.size).as_bytes();
    let version = version.format(meta.version).as_bytes();
    print_parts(size, version, &digest, &metadata, &id, sink)
}

/// Writes octets in hexadecimal into as much room as they need.
fn encode(octets: &[u8], digits: &mut [u8])
    requires { length digits.old ≡ 2 * length octets.now }
    ensures { digits.new ≡ encode_lower octets.now }
{
    if hex::encode_to_slice(octets, digits).is_err() {
        prove!(false);
    }
}

/// Prints what was read.
fn print_read<K: Sink>(read: &ImageRead, sink: &mut K) -> Result<(), Failed>
    ensures ok { OnOk result (Wrote (K.written sink.old) (K.written sink.new) (read_printed read.now)) }
    ensures err { OnErr result (WroteSome (K.written sink.old) (K.written sink.new) (read_printed read.now)) }
    ensures cause { HasCause (K.faults sink.old) (K.faults sink.new) result }
{
    match read {
        ImageRead::Whole(meta) => print_meta(meta, sink),
        ImageRead::Empty => write_refusal(sink, 0, 0, b"short"),
        ImageRead::TooLarge => write_refusal(sink, 0, MOST_OCTETS, b"long"),
    }
}

/// Prints the image that the source gives, of this version.
pub(crate) fn print_image<S: Source, K: Sink>(version: u32, source: &mut S, sink: &mut K) -> Status
    ensures ends { ImageTold version (S.left source.old) (S.left source.new) (K.written sink.old) (K.written sink.new) result }
    ensures complete { (Rose (S.faults source.old) (S.faults source.new) → ⊥) → (Rose (K.faults sink.old) (K.faults sink.new) → ⊥)
        → WhereTold (S.left source.old) (S.left source.new) (λ held left. IsStatusOf (image_refusal held) result) }
    ensures source { result ≡ Status.SourceFault → Rose (S.faults source.old) (S.faults source.new) }
    ensures sink { result ≡ Status.SinkFault → Rose (K.faults sink.old) (K.faults sink.new) }
    ensures memory { result ≢ Status.NoMemory }
    ensures command { result ≢ Status.Usage }
{
    let read = match read_image(version, source) {
        Ok(read) => read,
        Err(_) => return Status::SourceFault,
    };
    match print_read(&read, sink) {
        Ok(()) => read.status(),
        Err(_) => Status::SinkFault,
    }
}
