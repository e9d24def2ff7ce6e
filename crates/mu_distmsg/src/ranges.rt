ghost use Rattle.std.specs.Prelude.{◌≡◌, ◌≤◌, ◌↔◌, IsTrue, map};
ghost use Rattle.std.specs.List.{All};
ghost use Rattle.mu_model_wire.specs.Spelling.{Fits, EntryFits, EntriesFit};
ghost use Rattle.mu_model_wire.specs.Distribution.{distribution_rows, receiver_fields, row_fields};
ghost use Rattle.mu_distmsg.specs.View.{view, pair_shown, row_shown, RowIsEven, InRange};

use crate::message::{DistMsg, ReceiverRow};
use arrayvec::ArrayVec;

/// Whether each field is in its range, those of some cases alone are there in these alone, no progress is odd, and the
/// message has at most 380 octets.
pub fn in_range(msg: &DistMsg) -> bool
    ensures { IsTrue result ↔ InRange msg.now }
{
    match msg {
        DistMsg::ReceiversAdd { entries } => receivers_add(entries),
        DistMsg::ReceiversStatus { status, count } => receivers_status(*status, *count),
        DistMsg::ReceiversGet { first, limit } => receivers_get(*first, *limit),
        DistMsg::ReceiversList {
            count,
            first,
            entries,
        } => receivers_list(*count, *first, entries),
        DistMsg::CapabilitiesStatus {
            receivers,
            images,
            max_size,
            space,
            remaining,
            oob,
            schemes,
        } => capabilities_status(
            *receivers, *images, *max_size, *space, *remaining, *oob, schemes,
        ),
        DistMsg::DistributionStart {
            appkey,
            ttl,
            base,
            mode,
            policy,
            image,
            label,
            group,
        } => distribution_start(*appkey, *ttl, *base, *mode, *policy, *image, *label, *group),
        DistMsg::DistributionStatus {
            status,
            phase,
            group,
            appkey,
            ttl,
            base,
            mode,
            policy,
            image,
        } => distribution_status(
            *status, *phase, *group, *appkey, *ttl, *base, *mode, *policy, *image,
        ),
        DistMsg::UploadStart {
            ttl,
            base,
            id,
            size,
            metadata,
            fwid,
        } => upload_start(*ttl, *base, *id, *size, metadata, fwid),
        DistMsg::UploadStartOob { uri, fwid } => upload_start_oob(uri, fwid),
        DistMsg::UploadStatus {
            status,
            phase,
            progress,
            kind,
            fwid,
        } => upload_status(*status, *phase, *progress, *kind, *fwid),
        DistMsg::FirmwareGet { fwid } => firmware_get(fwid),
        DistMsg::FirmwareGetByIndex { index } => firmware_get_by_index(*index),
        DistMsg::FirmwareDelete { fwid } => firmware_delete(fwid),
        DistMsg::FirmwareStatus {
            status,
            count,
            index,
            fwid,
        } => firmware_status(*status, *count, *index, *fwid),
        DistMsg::ReceiversDeleteAll
        | DistMsg::CapabilitiesGet
        | DistMsg::DistributionGet
        | DistMsg::DistributionSuspend
        | DistMsg::DistributionCancel
        | DistMsg::DistributionApply
        | DistMsg::UploadGet
        | DistMsg::UploadCancel
        | DistMsg::FirmwareDeleteAll => true,
    }
}

fn receivers_add(entries: &ArrayVec<(u16, u8), 126>) -> bool
    ensures { IsTrue result ↔ Fits distribution_rows (view (DistMsg.ReceiversAdd entries.now)) }
{
    !entries.is_empty() && receivers_in_range(entries.as_slice())
}

fn receivers_in_range(receivers: &[(u16, u8)]) -> bool
    ensures { IsTrue result ↔ EntriesFit receiver_fields (map pair_shown receivers.now) }
{
    for receiver in receivers {
        if !receiver_in_range(*receiver) {
            return false;
        }
    }
    true
}

fn receiver_in_range(receiver: (u16, u8)) -> bool
    ensures { IsTrue result ↔ EntryFits receiver_fields (pair_shown receiver) }
{
    receiver.0 >= 0x0001 && receiver.0 <= 0x7FFF
}

fn receivers_status(status: u8, count: u16) -> bool
    ensures { IsTrue result ↔ Fits distribution_rows (view (DistMsg.ReceiversStatus status count)) }
{
    status <= 13
}

fn receivers_get(first: u16, limit: u16) -> bool
    ensures { IsTrue result ↔ Fits distribution_rows (view (DistMsg.ReceiversGet first limit)) }
{
    true
}

fn receivers_list(count: u16, first: u16, entries: &ArrayVec<ReceiverRow, 74>) -> bool
    ensures { IsTrue result ↔ InRange (DistMsg.ReceiversList count first entries.now) }
{
    rows_in_range(entries.as_slice())
}

fn rows_in_range(rows: &[ReceiverRow]) -> bool
    ensures { IsTrue result ↔ (EntriesFit row_fields (map row_shown rows.now) × All RowIsEven rows.now) }
{
    for row in rows {
        if !row_in_range(*row) {
            return false;
        }
    }
    true
}

fn row_in_range(row: ReceiverRow) -> bool
    ensures { IsTrue result ↔ (EntryFits row_fields (row_shown row) × RowIsEven row) }
{
    row.address >= 0x0001
        && row.address <= 0x7FFF
        && row.phase <= 10
        && row.update_status <= 7
        && row.transfer_status <= 10
        && row.progress <= 100
        && row.progress % 2 == 0
}

fn capabilities_status(
    receivers: u16,
    images: u16,
    max_size: u32,
    space: u32,
    remaining: u32,
    oob: u8,
    schemes: &[u8],
) -> bool
    ensures { IsTrue result ↔ Fits distribution_rows (view (DistMsg.CapabilitiesStatus receivers images max_size space remaining oob schemes.entry)) }
{
    oob <= 1 && schemes.len() <= 361
}

fn distribution_start(
    appkey: u16,
    ttl: u8,
    base: u16,
    mode: u8,
    policy: u8,
    image: u16,
    label: Option<[u8; 16]>,
    group: Option<u16>,
) -> bool
    ensures { IsTrue result ↔ Fits distribution_rows (view (DistMsg.DistributionStart appkey ttl base mode policy image label group)) }
{
    if appkey > 4095 || mode < 1 || mode > 2 || policy > 1 {
        return false;
    }
    match (label, group) {
        (Some(_), None) => true,
        (None, Some(group)) => group == 0 || group >= 0xC000,
        _ => false,
    }
}

fn distribution_status(
    status: u8,
    phase: u8,
    group: Option<u16>,
    appkey: Option<u16>,
    ttl: Option<u8>,
    base: Option<u16>,
    mode: Option<u8>,
    policy: Option<u8>,
    image: Option<u16>,
) -> bool
    ensures { IsTrue result ↔ Fits distribution_rows (view (DistMsg.DistributionStatus status phase group appkey ttl base mode policy image)) }
{
    if status > 13 || phase > 7 {
        return false;
    }
    match (group, appkey, ttl, base, mode, policy, image) {
        (None, None, None, None, None, None, None) => phase == 0,
        (Some(group), Some(appkey), Some(_), Some(_), Some(mode), Some(policy), Some(_)) => {
            phase >= 1
                && (group == 0 || group >= 0x8000)
                && appkey <= 4095
                && mode >= 1
                && mode <= 2
                && policy <= 1
        }
        _ => false,
    }
}

fn upload_start(ttl: u8, base: u16, id: u64, size: u32, metadata: &[u8], fwid: &[u8]) -> bool
    ensures { IsTrue result ↔ Fits distribution_rows (view (DistMsg.UploadStart ttl base id size metadata.entry fwid.entry)) }
{
    size >= 1
        && metadata.len() <= 255
        && fwid.len() >= 2
        && fwid.len() <= 108
        && metadata.len() + fwid.len() <= 362
}

fn upload_start_oob(uri: &[u8], fwid: &[u8]) -> bool
    ensures { IsTrue result ↔ Fits distribution_rows (view (DistMsg.UploadStartOob uri.entry fwid.entry)) }
{
    uri.len() <= 255 && fwid.len() >= 2 && fwid.len() <= 108
}

fn upload_status(
    status: u8,
    phase: u8,
    progress: Option<u8>,
    kind: Option<u8>,
    fwid: Option<&[u8]>,
) -> bool
    ensures { IsTrue result ↔ Fits distribution_rows (view (DistMsg.UploadStatus status phase progress kind fwid.entry)) }
{
    if status > 13 || phase > 3 {
        return false;
    }
    match (progress, kind, fwid) {
        (None, None, None) => phase == 0,
        (Some(progress), Some(kind), Some(fwid)) => {
            phase >= 1 && progress <= 100 && kind <= 1 && fwid.len() >= 2 && fwid.len() <= 108
        }
        _ => false,
    }
}

fn firmware_get(fwid: &[u8]) -> bool
    ensures { IsTrue result ↔ Fits distribution_rows (view (DistMsg.FirmwareGet fwid.entry)) }
{
    fwid.len() >= 2 && fwid.len() <= 108
}

fn firmware_get_by_index(index: u16) -> bool
    ensures { IsTrue result ↔ Fits distribution_rows (view (DistMsg.FirmwareGetByIndex index)) }
{
    true
}

fn firmware_delete(fwid: &[u8]) -> bool
    ensures { IsTrue result ↔ Fits distribution_rows (view (DistMsg.FirmwareDelete fwid.entry)) }
{
    fwid.len() >= 2 && fwid.len() <= 108
}

fn firmware_status(status: u8, count: u16, index: u16, fwid: Option<&[u8]>) -> bool
    ensures { IsTrue result ↔ Fits distribution_rows (view (DistMsg.FirmwareStatus status count index fwid.entry)) }
{
    match fwid {
        None => status <= 13,
        Some(fwid) => status <= 13 && fwid.len() >= 2 && fwid.len() <= 108,
    }
}
