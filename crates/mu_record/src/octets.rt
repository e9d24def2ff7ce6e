// Records as octets.
ghost use Rattle.std.specs.Prelude.{◌≡◌, ℕ, ◌+◌, ◌*◌, ◌<◌, ◌≤◌, ◌↔◌, [], ◌∷◌, IsTrue, MatchOption, length, slice_index};
ghost use Rattle.mu_model_flash.specs.Bits.{AreOctets, part_of};
ghost use Rattle.mu_model_record.specs.declared.Record.{Record};
ghost use Rattle.mu_model_record.specs.Record.{zeros, IsRecord, IsSpelled};
ghost use Rattle.mu_record.specs.Header.{header_of};

use crate::entry::{ENTRY, entries_from, entries_octets, is_zero, put};
use crate::ranges::has_ranges;
use byteorder::{ByteOrder, LittleEndian};
use mu_model_flash::laws::ranges_of_octets;
use mu_model_image::laws;
use mu_model_record::laws::records;
use mu_model_record::{Record, Tag};

const NAME: [u8; 4] = [0x4D, 0x55, 0x46, 0x31];

const HEADER: usize = 16;

const TAG: usize = 256;

fn header_octets(fields: &Record, format: u8) -> [u8; 16]
    ensures { result ≡ header_of format fields.now }
{
    let mut octets = [0; HEADER];
    octets[..4].copy_from_slice(&NAME);
    octets[4] = format;
    octets[5] = fields.number;
    LittleEndian::write_u16(&mut octets[6..], fields.pages);
    LittleEndian::write_u32(&mut octets[8..], fields.count);
    octets
}

// The octets of a record before anything is put there.
pub(crate) fn no_octets() -> [u8; 2048]
    ensures { result ≡ zeros 2048 }
{
    [0; 2048]
}

/// The octets of a record of a format.
pub fn record_octets(fields: &Record, format: u8) -> [u8; 2048]
    requires { IsRecord fields.now }
    ensures spelled { IsSpelled format fields.now result }
    ensures small { AreOctets result }
{
    ranges_of_octets();
    let mut octets = no_octets();
    put(&mut octets, 0, &header_octets(fields, format));
    put(&mut octets, HEADER, &entries_octets(&fields.banks));
    put(&mut octets, TAG, &fields.tag);
    octets
}

fn has_name(octets: &[u8; 2048]) -> bool
    ensures { IsTrue result ↔ (part_of octets.now 0 4 ≡ 0x4D ∷ 0x55 ∷ 0x46 ∷ 0x31 ∷ []) }
{
    &octets[..4] == NAME.as_slice()
}

// Whether the octets are those of a record where nothing else than a bank's entry or the tag stands.
fn is_framed(octets: &[u8; 2048], format: u8) -> bool
    ensures { IsTrue result ↔ (part_of octets.now 0 4 ≡ 0x4D ∷ 0x55 ∷ 0x46 ∷ 0x31 ∷ []) × (slice_index octets.now 4 ≡ format)
        × (part_of octets.now 12 4 ≡ zeros 4) × (part_of octets.now 208 48 ≡ zeros 48) }
{
    if !has_name(octets) {
        return false;
    }
    if octets[4] != format {
        return false;
    }
    if !is_zero(&octets[12..16]) {
        return false;
    }
    is_zero(&octets[208..256])
}

fn tag_of(octets: &[u8; 2048]) -> Tag
    ensures { result ≡ part_of octets.now 256 1792 }
{
    let mut tag = [0; 1792];
    tag.copy_from_slice(&octets[TAG..]);
    tag
}

/// The record of a format that octets are, or none.
pub fn record_from(octets: &[u8; 2048], format: u8) -> Option<Record>
    ensures { MatchOption result ((r : Record) → IsRecord r → ¬ IsSpelled format r octets.now) (λ r. IsSpelled format r octets.now × IsRecord r) }
{
    laws::metadata();
    records();
    if !is_framed(octets, format) {
        return None;
    }
    let Some(banks) = entries_from(&octets[HEADER..HEADER + 4 * ENTRY]) else {
        return None;
    };
    let fields = Record {
        count: LittleEndian::read_u32(&octets[8..]),
        pages: LittleEndian::read_u16(&octets[6..]),
        number: octets[5],
        banks,
        tag: tag_of(octets),
    };
    if has_ranges(&fields) {
        Some(fields)
    } else {
        None
    }
}
