// Images: a function for each request.
ghost use Rattle.std.specs.Prelude.{◌≡◌, ◌≤◌, [], true, false, Some, None, IfErr, OnOk, length};
ghost use Rattle.std.specs.Option.{option_map};
ghost use Rattle.mu_model_distributor.specs.DistState.{DistState};
ghost use Rattle.mu_model_distributor.specs.Replies.{FirmwareStatus};
ghost use Rattle.mu_model_distributor.specs.Firmware.{no_index, firmware_status, firmware_get, firmware_get_by_index, firmware_delete, firmware_delete_all, with_images};
ghost use Rattle.mu_distributor_rows.specs.Due.{IsDueIn, IsDueOf};
ghost use Rattle.mu_distributor_rows.specs.Looks.{seen, LooksAs};
ghost use Rattle.mu_distributor_rows.specs.Replies.{IsIdThere};
ghost use Rattle.mu_distributor_rows.specs.Decided.{run_seen, is_in_part, has_id, place_from, deletion, whole_deletion};
ghost use Rattle.mu_distributor_rows.specs.Rows.{deleted, all_deleted};

use crate::looks::{DistLook, is_at_rest, run_phase};
use crate::replies::{DistAnswer, DistReply};
use crate::uploads::own_id;
use mu_distributor_kept::UploadPhase;
use mu_image::{Fwid, Meta};

// The index of no image.
const NO_INDEX: u16 = 0xFFFF;

/// Whether an image of these metadata has this Firmware ID.
pub fn has_id(meta: &Meta, fwid: &[u8]) -> bool
    ensures { result ≡ has_id fwid.now meta.now }
{
    let own = own_id(meta);
    own.as_slice() == fwid
}

// The least index of metadata with this ID.
fn place(metas: &[Meta], fwid: &[u8]) -> Option<u16>
    requires { length metas.now ≤ 4 }
    ensures { result ≡ place_from 0 metas.now fwid.now }
{
    for i in 0..metas.len() {
        if has_id(&metas[i], fwid) {
            return Some(i as u16);
        }
    }
    None
}

// The Firmware ID as it was asked for.
fn asked_id(fwid: &[u8]) -> Fwid
    requires { length fwid.now ≤ 108 }
    ensures { result.items ≡ fwid.now }
{
    let mut id = Fwid::new();
    if id.try_extend_from_slice(fwid).is_err() {
        prove!(false);
    }
    id
}

fn status_of<'a>(look: DistLook<'a>, status: u8, index: u16, fwid: Option<Fwid>) -> DistAnswer
    requires few { length look.metas.now ≤ 4 }
    requires known { status ≤ 13 }
    requires id { IsIdThere (option_map (λ id. id.items) fwid) }
    ensures { result ≡ FirmwareStatus status (length (seen look.entry).metas) index (option_map (λ id. id.items) fwid) }
{
    DistAnswer::new(DistReply::FirmwareStatus {
        status,
        count: look.metas.len() as u16,
        index,
        fwid,
    })
}

/// The Firmware Distribution Firmware Status that answers a Firmware Delete of this ID.
#[tactic(auto, using(crate::proofs::FirmwareRows::count_is))]
pub fn firmware_status<'a>(look: DistLook<'a>, status: u8, fwid: &[u8]) -> DistAnswer
    requires few { length look.metas.now ≤ 4 }
    requires known { status ≤ 13 }
    requires least { 2 ≤ length fwid.now }
    requires most { length fwid.now ≤ 108 }
    ensures { (s : DistState) → LooksAs look.entry s → result ≡ firmware_status no_index (Some fwid.now) status s }
{
    status_of(look, status, NO_INDEX, Some(asked_id(fwid)))
}

/// The Firmware Distribution Firmware Status that answers a Firmware Delete All.
#[tactic(auto, using(crate::proofs::FirmwareRows::count_is))]
pub fn all_firmware_status<'a>(look: DistLook<'a>, status: u8) -> DistAnswer
    requires few { length look.metas.now ≤ 4 }
    requires known { status ≤ 13 }
    ensures { (s : DistState) → LooksAs look.entry s → result ≡ firmware_status no_index None status s }
{
    status_of(look, status, NO_INDEX, None)
}

/// Firmware Distribution Firmware Get: the least index of an image with this ID.
#[tactic(auto, using(crate::proofs::FirmwareRows::found_is))]
pub fn firmware_get<'a>(look: DistLook<'a>, fwid: &[u8]) -> DistAnswer
    requires few { length look.metas.now ≤ 4 }
    requires least { 2 ≤ length fwid.now }
    requires most { length fwid.now ≤ 108 }
    ensures { (s : DistState) → LooksAs look.entry s → result ≡ firmware_get fwid.now s }
{
    match place(look.metas, fwid) {
        None => status_of(look, 4, NO_INDEX, Some(asked_id(fwid))),
        Some(index) => status_of(look, 0, index, Some(asked_id(fwid))),
    }
}

/// Firmware Distribution Firmware Get By Index.
#[tactic(auto, using(crate::proofs::FirmwareRows::shown_is))]
pub fn firmware_get_by_index<'a>(look: DistLook<'a>, index: u16) -> DistAnswer
    requires few { length look.metas.now ≤ 4 }
    ensures { (s : DistState) → LooksAs look.entry s → result ≡ firmware_get_by_index index s }
{
    match look.metas.get(usize::from(index)) {
        None => status_of(look, 4, index, None),
        Some(meta) => status_of(look, 0, index, Some(own_id(meta))),
    }
}

fn is_in_part(phase: UploadPhase) -> bool
    ensures { result ≡ is_in_part phase }
{
    match phase {
        UploadPhase::TransferActive | UploadPhase::TransferError => true,
        UploadPhase::Idle | UploadPhase::TransferSuccess => false,
    }
}

fn delete_any<'a>(look: DistLook<'a>) -> Result<bool, u8>
    ensures known { IfErr result (λ status. status ≤ 13) }
    ensures step { result ≡ whole_deletion (seen look.entry) }
    ensures rests { OnOk result (is_in_part (run_seen (seen look.entry)) ≡ false) }
{
    if !is_at_rest(look.phase) {
        return Err(7);
    }
    if is_in_part(run_phase(look.recorded, look.lags)) {
        return Err(8);
    }
    Ok(!look.metas.is_empty())
}

fn delete<'a>(look: DistLook<'a>, fwid: &[u8]) -> Result<(), u8>
    requires { length look.metas.now ≤ 4 }
    ensures known { IfErr result (λ status. status ≤ 13) }
    ensures step { result ≡ deletion (seen look.entry) fwid.now }
    ensures rests { OnOk result (is_in_part (run_seen (seen look.entry)) ≡ false) }
{
    if !is_at_rest(look.phase) {
        return Err(7);
    }
    if is_in_part(run_phase(look.recorded, look.lags)) {
        return Err(8);
    }
    if place(look.metas, fwid).is_none() {
        return Err(4);
    }
    Ok(())
}

/// Firmware Distribution Firmware Delete: whether the images with this ID go, or the status that refuses: 7 during a distribution, 8
/// while an upload came in part, 4 where there is no such image.
pub fn firmware_delete<'a>(look: DistLook<'a>, fwid: &[u8]) -> Result<(), u8>
    requires { length look.metas.now ≤ 4 }
    ensures known { IfErr result (λ status. status ≤ 13) }
    ensures step { (s : DistState) → LooksAs look.entry s → firmware_delete s fwid.now ≡ deleted s fwid.now result }
    ensures due { (s : DistState) → LooksAs look.entry s → IsDueIn true s (deleted s fwid.now result) }
    ensures rests { OnOk result (is_in_part (run_seen (seen look.entry)) ≡ false) }
{
    delete(look, fwid)
}

/// Firmware Distribution Firmware Delete All: whether what is kept changes, or the status that refuses, 7 or 8 as above.
pub fn firmware_delete_all<'a>(look: DistLook<'a>) -> Result<bool, u8>
    ensures known { IfErr result (λ status. status ≤ 13) }
    ensures step { (s : DistState) → LooksAs look.entry s → firmware_delete_all s ≡ all_deleted s result }
    ensures due { (s : DistState) → LooksAs look.entry s → IsDueOf result s (with_images s []) }
    ensures rests { OnOk result (is_in_part (run_seen (seen look.entry)) ≡ false) }
{
    delete_any(look)
}
