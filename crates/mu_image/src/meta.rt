ghost use Rattle.std.specs.Prelude.{◌≡◌};
ghost use Rattle.mu_model_image.specs.Meta.{meta_from, meta_octets, firmware_id};

use arrayvec::ArrayVec;
use byteorder::{ByteOrder, LittleEndian};
use mu_model_image::Meta;

/// The octets of a Firmware ID (MshDFU: at most 108).
pub type Fwid = ArrayVec<u8, 108>;

/// Reads metadata: size, version and SHA-256, 40 octets. None exactly where there aren't 40 octets
/// or the size is 0.
pub fn meta_from(bytes: &[u8]) -> Option<Meta>
    ensures { result ≡ meta_from bytes.now }
{
    if bytes.len() != 40 {
        return None;
    }
    let size = LittleEndian::read_u32(bytes);
    if size == 0 {
        return None;
    }
    let mut digest = [0; 32];
    digest.copy_from_slice(&bytes[8..]);
    Some(Meta {
        size,
        version: LittleEndian::read_u32(&bytes[4..]),
        digest,
    })
}

/// The 40 octets of metadata.
pub fn meta_octets(meta: &Meta) -> [u8; 40]
    ensures { result ≡ meta_octets meta.now }
{
    let mut octets = [0; 40];
    LittleEndian::write_u32(&mut octets, meta.size);
    LittleEndian::write_u32(&mut octets[4..], meta.version);
    octets[8..].copy_from_slice(&meta.digest);
    octets
}

/// The Firmware ID of an image of a company: company, version and SHA-256, 38 octets.
pub fn fwid_of(company: u16, meta: &Meta) -> Fwid
    ensures { result.items ≡ firmware_id company meta.now }
{
    let mut octets = [0; 38];
    LittleEndian::write_u16(&mut octets, company);
    LittleEndian::write_u32(&mut octets[2..], meta.version);
    octets[6..].copy_from_slice(&meta.digest);
    let mut id = Fwid::new();
    if id.try_extend_from_slice(&octets).is_err() {
        prove!(false);
    }
    id
}
