// The octets of a note that is written.
ghost use Rattle.std.specs.Prelude.{◌≡◌, ◌++◌, ◌+◌, ◌-◌, ◌*◌, ◌≤◌, length, slice_index_or};
ghost use Rattle.std.specs.List.{flat_map};
ghost use Rattle.mu_model_image.specs.Meta.{meta_octets};
ghost use Rattle.mu_model_record.specs.Record.{zeros};
ghost use Rattle.mu_model_represents_distributor.specs.DistributorNote.{receiver_octets, settings_octets, head_octets, distributor_octets};
ghost use Rattle.mu_distributor_kept.specs.Views.{row_receiver, row_receivers};
ghost use Rattle.mu_distributor_note.specs.Views.{distributor_note};
ghost use Rattle.mu_distributor_note.specs.Rules.{HasModeAndPolicy};

use crate::note::{NoteHead, phase_number};
use mu_distributor_kept::ReceiverRow;
use mu_image::meta_octets;
use mu_model_distributor::Settings;
use mu_note::Note;

// The first octet of a distributor's note.
pub(crate) const KIND: u8 = 2;

fn row_octets(row: &ReceiverRow) -> [u8; 6]
    ensures { result ≡ receiver_octets (row_receiver row.now) }
{
    let address = row.address.to_le_bytes();
    let mut octets = [0; 6];
    octets[..2].copy_from_slice(&address);
    octets[2] = row.image_index;
    octets[3] = row.phase;
    octets[4] = row.update_status;
    octets[5] = row.transfer_status;
    octets
}

// The rows from the first octet on, six octets each; the octets past them stay 0.
fn put_rows(octets: &mut [u8], rows: &[ReceiverRow])
    requires long { length octets.old ≡ 1600 }
    requires blank { octets.old ≡ zeros 1600 }
    requires few { length rows.now ≤ 128 }
    ensures { octets.new ≡ flat_map receiver_octets (row_receivers rows.now) ++ zeros (1600 - 6 * length rows.now) }
{
    for i in 0..rows.len() {
        let row = row_octets(&rows[i]);
        octets[6 * i..6 * i + 6].copy_from_slice(&row);
    }
}

fn settings_octets(settings: &Settings) -> [u8; 10]
    requires { HasModeAndPolicy settings.now }
    ensures { result ≡ settings_octets settings.now }
{
    let base = settings.base.to_le_bytes();
    let image = settings.image.to_le_bytes();
    let group = settings.group.to_le_bytes();
    let appkey = settings.appkey.to_le_bytes();
    let mut octets = [0; 10];
    octets[0] = settings.ttl;
    octets[1..3].copy_from_slice(&base);
    octets[3] = settings.mode + 4 * settings.policy;
    octets[4..6].copy_from_slice(&image);
    octets[6..8].copy_from_slice(&group);
    octets[8..10].copy_from_slice(&appkey);
    octets
}

// The bank of an image, 0 where there is no such image.
fn bank_at(banks: &[u8], index: usize) -> u8
    ensures { result ≡ slice_index_or banks.now index 0 }
{
    banks.get(index).copied().unwrap_or(0)
}

fn head_octets(head: &NoteHead, rows: &[ReceiverRow]) -> [u8; 28]
    requires settings { HasModeAndPolicy head.now.settings }
    requires few { length rows.now ≤ 128 }
    ensures { result ≡ head_octets (distributor_note head.now rows.now) }
{
    let banks = head.banks.as_slice();
    let counter = head.counter.to_le_bytes();
    let settings = settings_octets(&head.settings);
    let mut octets = [0; 28];
    octets[0] = KIND;
    octets[1] = phase_number(head.phase);
    octets[2] = head.upload.number();
    octets[3] = banks.len() as u8;
    octets[4] = bank_at(banks, 0);
    octets[5] = bank_at(banks, 1);
    octets[6] = bank_at(banks, 2);
    octets[7] = bank_at(banks, 3);
    octets[8..16].copy_from_slice(&counter);
    octets[16..26].copy_from_slice(&settings);
    octets[26] = rows.len() as u8;
    octets[27] = head.upload_ttl;
    octets
}

// The octets before the rows.
fn first_octets(head: &NoteHead, rows: &[ReceiverRow]) -> [u8; 128]
    requires settings { HasModeAndPolicy head.now.settings }
    requires few { length rows.now ≤ 128 }
    ensures { result ≡ head_octets (distributor_note head.now rows.now) ++ (meta_octets head.now.upload_meta ++ zeros 60) }
{
    let first = head_octets(head, rows);
    let meta = meta_octets(&head.upload_meta);
    let mut octets = [0; 128];
    octets[..28].copy_from_slice(&first);
    octets[28..68].copy_from_slice(&meta);
    octets
}

/// The note of a distributor with these receivers, as it is written. Past its rows the octets are 0, so few receivers make a short
/// record. The settings' mode is 0 to 2, their policy 0 or 1.
pub fn distributor_note_octets(head: &NoteHead, rows: &[ReceiverRow]) -> Note
    requires settings { HasModeAndPolicy head.now.settings }
    requires few { length rows.now ≤ 128 }
    ensures { result ≡ distributor_octets (distributor_note head.now rows.now) }
{
    let first = first_octets(head, rows);
    let mut octets = [0; 1728];
    put_rows(&mut octets[128..], rows);
    octets[..128].copy_from_slice(&first);
    octets
}
