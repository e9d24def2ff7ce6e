// What the octets of a note say.
ghost use Rattle.std.specs.Prelude.{◌≡◌, ◌≤◌, [], map, IfOk, OnErr, length, slice_index};
ghost use Rattle.std.specs.List.{range_with_len};
ghost use Rattle.mu_model_image.specs.Meta.{meta_of};
ghost use Rattle.mu_model_represents_distributor.specs.DistributorNote.{DistributorNote as NoteOfDistributor};
ghost use Rattle.mu_model_stored_distributor.specs.DistributorIn.{phase_in, upload_in, settings_in, receiver_in, row_in, bank_in, note_in};
ghost use Rattle.mu_distributor_kept.specs.Views.{upload_phase, row_receiver, row_receivers};
ghost use Rattle.mu_distributor_note.specs.Views.{distributor_note};
ghost use Rattle.mu_distributor_note.specs.Rules.{IsDistributorNote};

use crate::note::NoteHead;
use crate::rules::follows_rules;
use crate::spelled::is_spelled;
use arrayvec::ArrayVec;
use byteorder::{ByteOrder, LittleEndian};
use mu_distributor_kept::{ReceiverRow, Rows, UploadPhase};
use mu_image::Meta;
use mu_model_distributor::{DistPhase, Settings};
use mu_model_stored_distributor::laws::distributor_is_read;
use mu_note::{Foreign, Note};

fn phase_from(number: u8) -> DistPhase
    ensures { result ≡ phase_in number }
{
    match number {
        0 => DistPhase::Idle,
        1 => DistPhase::TransferActive,
        2 => DistPhase::TransferSuccess,
        3 => DistPhase::ApplyingUpdate,
        4 => DistPhase::Completed,
        5 => DistPhase::Failed,
        6 => DistPhase::CancelingUpdate,
        _ => DistPhase::TransferSuspended,
    }
}

fn upload_from(number: u8) -> UploadPhase
    ensures { upload_phase result ≡ upload_in number }
{
    match number {
        0 => UploadPhase::Idle,
        1 => UploadPhase::TransferActive,
        2 => UploadPhase::TransferError,
        _ => UploadPhase::TransferSuccess,
    }
}

fn settings_from(octets: &[u8]) -> Settings
    requires { length octets.now ≡ 1728 }
    ensures { result ≡ settings_in octets.now }
{
    Settings {
        appkey: LittleEndian::read_u16(&octets[24..]),
        ttl: octets[16],
        base: LittleEndian::read_u16(&octets[17..]),
        mode: octets[19] % 4,
        policy: octets[19] / 4,
        image: LittleEndian::read_u16(&octets[20..]),
        group: LittleEndian::read_u16(&octets[22..]),
    }
}

// Metadata, or octets 0.
fn meta_of(octets: &[u8]) -> Meta
    requires { length octets.now ≡ 40 }
    ensures { result ≡ meta_of octets.now }
{
    let mut digest = [0; 32];
    digest.copy_from_slice(&octets[8..]);
    Meta {
        size: LittleEndian::read_u32(octets),
        version: LittleEndian::read_u32(&octets[4..]),
        digest,
    }
}

fn row_from(octets: &[u8]) -> ReceiverRow
    requires { length octets.now ≡ 6 }
    ensures receiver { row_receiver result ≡ receiver_in octets.now }
    ensures progress { result.progress ≡ 0 }
{
    ReceiverRow {
        address: LittleEndian::read_u16(octets),
        phase: octets[3],
        update_status: octets[4],
        transfer_status: octets[5],
        progress: 0,
        image_index: octets[2],
    }
}

fn rows_from(octets: &[u8]) -> Rows
    requires long { length octets.now ≡ 1728 }
    requires few { slice_index octets.now 26 ≤ 128 }
    ensures rows { row_receivers result.items ≡ map (row_in octets.now) (range_with_len 0 (slice_index octets.now 26)) }
    ensures blank { map (λ row. row.progress) result.items ≡ map (λ row. 0) result.items }
{
    let mut rows = Rows::new();
    for k in 0..usize::from(octets[26]) {
        let row = row_from(&octets[128 + 6 * k..134 + 6 * k]);
        rows.push(row);
    }
    rows
}

fn banks_from(octets: &[u8]) -> ArrayVec<u8, 4>
    requires long { length octets.now ≡ 1728 }
    requires few { slice_index octets.now 3 ≤ 4 }
    ensures { result.items ≡ map (bank_in octets.now) (range_with_len 0 (slice_index octets.now 3)) }
{
    let mut banks = ArrayVec::new();
    for k in 0..usize::from(octets[3]) {
        banks.push(octets[4 + k]);
    }
    banks
}

fn head_from(octets: &[u8]) -> NoteHead
    requires long { length octets.now ≡ 1728 }
    requires few { slice_index octets.now 3 ≤ 4 }
    ensures { distributor_note result [] ≡ record (note_in octets.now) { receivers = [] } }
{
    NoteHead {
        phase: phase_from(octets[1]),
        upload: upload_from(octets[2]),
        banks: banks_from(octets),
        counter: LittleEndian::read_u64(&octets[8..]),
        settings: settings_from(octets),
        upload_ttl: octets[27],
        upload_meta: meta_of(&octets[28..68]),
    }
}

/// What a note says of a distributor and of its receivers, whose progress is 0. Foreign exactly where the octets are no note of a
/// distributor: the octets past the images and past the receivers are 0, numbers are in their ranges, banks and addresses differ,
/// a distribution has an image and a receiver, and before the first one its settings are 0. The rules against the record's banks and
/// the BLOB part aren't looked at.
pub fn distributor_note_from(note: &Note) -> Result<(NoteHead, Rows), Foreign>
    ensures read { IfOk result (λ r. IsDistributorNote (distributor_note r.0 r.1.items) note.now) }
    ensures blank { IfOk result (λ r. map (λ row. row.progress) r.1.items ≡ map (λ row. 0) r.1.items) }
    ensures foreign { OnErr result ((n : NoteOfDistributor) → ¬ IsDistributorNote n note.now) }
{
    distributor_is_read();
    if !is_spelled(note) {
        return Err(Foreign);
    }
    let head = head_from(note);
    let rows = rows_from(note);
    if !follows_rules(&head, rows.as_slice()) {
        return Err(Foreign);
    }
    Ok((head, rows))
}
