ghost use Rattle.std.specs.Prelude.{◌≡◌, ◌≤◌, ◌+◌, ◌++◌, [], ◌∷◌, map, length, Ok};
ghost use Rattle.arrayvec.specs.ArrayVec.{array_vec_len};
ghost use Rattle.mu_model_wire.specs.Reading.{message_at};
ghost use Rattle.mu_model_wire.specs.Spelling.{Fits, PartsFit, joined, EntryFits, EntriesFit, entry_spelling, entries_spelling, spelling};
ghost use Rattle.mu_model_wire.specs.Distribution.{distribution_rows, receiver_fields, row_fields, row_parts};
ghost use Rattle.mu_distmsg.specs.View.{view, pair_shown, row_shown, InRange};

use crate::message::{DistMsg, ReceiverRow};
use mu_codec::{Payload, put_octets, put_u8, put_u16, put_u32, put_u40, put_u64};
use mu_model_wire::laws::canonical_is_read;

/// The canonical octets of a message in range: its unused bits are 0.
pub fn write(msg: &DistMsg) -> Payload
    requires { InRange msg.now }
    ensures spelled { result.items ≡ spelling distribution_rows (view msg.now) }
    // Reading them gives the message back.
    ensures again { message_at distribution_rows result.items ≡ Ok (view msg.now) }
{
    canonical_is_read();
    spelled(msg)
}

fn spelled(msg: &DistMsg) -> Payload
    requires { Fits distribution_rows (view msg.now) }
    ensures { result.items ≡ spelling distribution_rows (view msg.now) }
{
    match msg {
        DistMsg::ReceiversAdd { entries } => receivers_add(entries.as_slice()),
        DistMsg::ReceiversDeleteAll => opcode_alone(0x12),
        DistMsg::ReceiversStatus { status, count } => receivers_status(*status, *count),
        DistMsg::ReceiversGet { first, limit } => receivers_get(*first, *limit),
        DistMsg::ReceiversList {
            count,
            first,
            entries,
        } => receivers_list(*count, *first, entries.as_slice()),
        DistMsg::CapabilitiesGet => opcode_alone(0x16),
        DistMsg::CapabilitiesStatus {
            receivers,
            images,
            max_size,
            space,
            remaining,
            oob,
            schemes,
        } => capabilities_status(
            *receivers, *images, *max_size, *space, *remaining, *oob, schemes,
        ),
        DistMsg::DistributionGet => opcode_alone(0x18),
        DistMsg::DistributionStart {
            appkey,
            ttl,
            base,
            mode,
            policy,
            image,
            label,
            group,
        } => distribution_start(*appkey, *ttl, *base, *mode, *policy, *image, *label, *group),
        DistMsg::DistributionSuspend => opcode_alone(0x1A),
        DistMsg::DistributionCancel => opcode_alone(0x1B),
        DistMsg::DistributionApply => opcode_alone(0x1C),
        DistMsg::DistributionStatus {
            status,
            phase,
            group,
            appkey,
            ttl,
            base,
            mode,
            policy,
            image,
        } => distribution_status(
            *status, *phase, *group, *appkey, *ttl, *base, *mode, *policy, *image,
        ),
        DistMsg::UploadGet => opcode_alone(0x1E),
        DistMsg::UploadStart {
            ttl,
            base,
            id,
            size,
            metadata,
            fwid,
        } => upload_start(*ttl, *base, *id, *size, metadata, fwid),
        DistMsg::UploadStartOob { uri, fwid } => upload_start_oob(uri, fwid),
        DistMsg::UploadCancel => opcode_alone(0x21),
        DistMsg::UploadStatus {
            status,
            phase,
            progress,
            kind,
            fwid,
        } => upload_status(*status, *phase, *progress, *kind, *fwid),
        DistMsg::FirmwareGet { fwid } => firmware_get(fwid),
        DistMsg::FirmwareGetByIndex { index } => firmware_get_by_index(*index),
        DistMsg::FirmwareDelete { fwid } => firmware_delete(fwid),
        DistMsg::FirmwareDeleteAll => opcode_alone(0x26),
        DistMsg::FirmwareStatus {
            status,
            count,
            index,
            fwid,
        } => firmware_status(*status, *count, *index, *fwid),
    }
}

fn opcode_alone(second: u8) -> Payload
    ensures { result.items ≡ 0x83 ∷ second ∷ [] }
{
    let mut out = Payload::new();
    put_octets(&mut out, &[0x83, second]);
    out
}

fn receivers_add(entries: &[(u16, u8)]) -> Payload
    requires { 2 + length (entries_spelling receiver_fields (map pair_shown entries.now)) ≤ 380 }
    ensures { result.items ≡ (0x83 ∷ 0x11 ∷ []) ++ entries_spelling receiver_fields (map pair_shown entries.now) }
{
    let mut out = Payload::new();
    put_octets(&mut out, &[0x83, 0x11]);
    put_receivers(&mut out, entries);
    out
}

fn put_receivers(out: &mut Payload, receivers: &[(u16, u8)])
    requires { array_vec_len out.old + length (entries_spelling receiver_fields (map pair_shown receivers.now)) ≤ 380 }
    ensures items { out.new.items ≡ out.old.items ++ entries_spelling receiver_fields (map pair_shown receivers.now) }
{
    for receiver in receivers {
        put_u16(out, receiver.0);
        put_u8(out, receiver.1);
    }
}

fn receivers_status(status: u8, count: u16) -> Payload
    requires { Fits distribution_rows (view (DistMsg.ReceiversStatus status count)) }
    ensures { result.items ≡ spelling distribution_rows (view (DistMsg.ReceiversStatus status count)) }
{
    let mut out = Payload::new();
    put_octets(&mut out, &[0x83, 0x13]);
    put_u8(&mut out, status);
    put_u16(&mut out, count);
    out
}

fn receivers_get(first: u16, limit: u16) -> Payload
    requires { Fits distribution_rows (view (DistMsg.ReceiversGet first limit)) }
    ensures { result.items ≡ spelling distribution_rows (view (DistMsg.ReceiversGet first limit)) }
{
    let mut out = Payload::new();
    put_octets(&mut out, &[0x83, 0x14]);
    put_u16(&mut out, first);
    put_u16(&mut out, limit);
    out
}

fn receivers_list(count: u16, first: u16, entries: &[ReceiverRow]) -> Payload
    requires room { 6 + length (entries_spelling row_fields (map row_shown entries.now)) ≤ 380 }
    requires fits { EntriesFit row_fields (map row_shown entries.now) }
    ensures { result.items ≡ spelling distribution_rows (view (DistMsg.ReceiversList count first (record { items = entries.now }))) }
{
    let mut out = Payload::new();
    put_octets(&mut out, &[0x83, 0x15]);
    put_u16(&mut out, count);
    put_u16(&mut out, first);
    put_rows(&mut out, entries);
    out
}

fn put_rows(out: &mut Payload, rows: &[ReceiverRow])
    requires room { array_vec_len out.old + length (entries_spelling row_fields (map row_shown rows.now)) ≤ 380 }
    requires fits { EntriesFit row_fields (map row_shown rows.now) }
    ensures items { out.new.items ≡ out.old.items ++ entries_spelling row_fields (map row_shown rows.now) }
{
    for row in rows {
        put_row(out, *row);
    }
}

fn put_row(out: &mut Payload, row: ReceiverRow)
    requires room { array_vec_len out.old + 5 ≤ 380 }
    requires fits { EntryFits row_fields (row_shown row) }
    ensures { out.new.items ≡ out.old.items ++ entry_spelling row_fields (row_shown row) }
{
    put_u40(out, row_number(row));
}

fn row_number(row: ReceiverRow) -> u64
    requires { PartsFit row_parts (row_shown row) }
    ensures { result ≡ joined row_parts (row_shown row) }
{
    row.address as u64
        + ((row.phase as u64) << 15)
        + ((row.update_status as u64) << 19)
        + ((row.transfer_status as u64) << 22)
        + ((row.progress as u64 / 2) << 26)
        + ((row.image_index as u64) << 32)
}

fn capabilities_status(
    receivers: u16,
    images: u16,
    max_size: u32,
    space: u32,
    remaining: u32,
    oob: u8,
    schemes: &[u8],
) -> Payload
    requires { Fits distribution_rows (view (DistMsg.CapabilitiesStatus receivers images max_size space remaining oob schemes)) }
    ensures { result.items ≡ spelling distribution_rows (view (DistMsg.CapabilitiesStatus receivers images max_size space remaining oob schemes.entry)) }
{
    let mut out = Payload::new();
    put_octets(&mut out, &[0x83, 0x17]);
    put_u16(&mut out, receivers);
    put_u16(&mut out, images);
    put_u32(&mut out, max_size);
    put_u32(&mut out, space);
    put_u32(&mut out, remaining);
    put_u8(&mut out, oob);
    put_octets(&mut out, schemes);
    out
}

fn distribution_start(
    appkey: u16,
    ttl: u8,
    base: u16,
    mode: u8,
    policy: u8,
    image: u16,
    label: Option<[u8; 16]>,
    group: Option<u16>,
) -> Payload
    requires { Fits distribution_rows (view (DistMsg.DistributionStart appkey ttl base mode policy image label group)) }
    ensures { result.items ≡ spelling distribution_rows (view (DistMsg.DistributionStart appkey ttl base mode policy image label group)) }
{
    let mut out = Payload::new();
    put_octets(&mut out, &[0x83, 0x19]);
    put_u16(&mut out, appkey);
    put_u8(&mut out, ttl);
    put_u16(&mut out, base);
    put_u8(&mut out, mode + policy * 4);
    put_u16(&mut out, image);
    if let Some(label) = label {
        put_octets(&mut out, &label);
    }
    if let Some(group) = group {
        put_u16(&mut out, group);
    }
    out
}

fn distribution_status(
    status: u8,
    phase: u8,
    group: Option<u16>,
    appkey: Option<u16>,
    ttl: Option<u8>,
    base: Option<u16>,
    mode: Option<u8>,
    policy: Option<u8>,
    image: Option<u16>,
) -> Payload
    requires { Fits distribution_rows (view (DistMsg.DistributionStatus status phase group appkey ttl base mode policy image)) }
    ensures { result.items ≡ spelling distribution_rows (view (DistMsg.DistributionStatus status phase group appkey ttl base mode policy image)) }
{
    let mut out = Payload::new();
    put_octets(&mut out, &[0x83, 0x1D]);
    put_u8(&mut out, status);
    put_u8(&mut out, phase);
    if let (
        Some(group),
        Some(appkey),
        Some(ttl),
        Some(base),
        Some(mode),
        Some(policy),
        Some(image),
    ) = (group, appkey, ttl, base, mode, policy, image)
    {
        put_u16(&mut out, group);
        put_u16(&mut out, appkey);
        put_u8(&mut out, ttl);
        put_u16(&mut out, base);
        put_u8(&mut out, mode + policy * 4);
        put_u16(&mut out, image);
    }
    out
}

fn upload_start(ttl: u8, base: u16, id: u64, size: u32, metadata: &[u8], fwid: &[u8]) -> Payload
    requires { Fits distribution_rows (view (DistMsg.UploadStart ttl base id size metadata fwid)) }
    ensures { result.items ≡ spelling distribution_rows (view (DistMsg.UploadStart ttl base id size metadata.entry fwid.entry)) }
{
    let mut out = Payload::new();
    put_octets(&mut out, &[0x83, 0x1F]);
    put_u8(&mut out, ttl);
    put_u16(&mut out, base);
    put_u64(&mut out, id);
    put_u32(&mut out, size);
    put_u8(&mut out, metadata.len() as u8);
    put_octets(&mut out, metadata);
    put_octets(&mut out, fwid);
    out
}

fn upload_start_oob(uri: &[u8], fwid: &[u8]) -> Payload
    requires { Fits distribution_rows (view (DistMsg.UploadStartOob uri fwid)) }
    ensures { result.items ≡ spelling distribution_rows (view (DistMsg.UploadStartOob uri.entry fwid.entry)) }
{
    let mut out = Payload::new();
    put_octets(&mut out, &[0x83, 0x20]);
    put_u8(&mut out, uri.len() as u8);
    put_octets(&mut out, uri);
    put_octets(&mut out, fwid);
    out
}

fn upload_status(
    status: u8,
    phase: u8,
    progress: Option<u8>,
    kind: Option<u8>,
    fwid: Option<&[u8]>,
) -> Payload
    requires { Fits distribution_rows (view (DistMsg.UploadStatus status phase progress kind fwid)) }
    ensures { result.items ≡ spelling distribution_rows (view (DistMsg.UploadStatus status phase progress kind fwid.entry)) }
{
    let mut out = Payload::new();
    put_octets(&mut out, &[0x83, 0x22]);
    put_u8(&mut out, status);
    put_u8(&mut out, phase);
    if let (Some(progress), Some(kind), Some(fwid)) = (progress, kind, fwid) {
        put_u8(&mut out, progress + kind * 128);
        put_octets(&mut out, fwid);
    }
    out
}

fn firmware_get(fwid: &[u8]) -> Payload
    requires { Fits distribution_rows (view (DistMsg.FirmwareGet fwid)) }
    ensures { result.items ≡ spelling distribution_rows (view (DistMsg.FirmwareGet fwid.entry)) }
{
    let mut out = Payload::new();
    put_octets(&mut out, &[0x83, 0x23]);
    put_octets(&mut out, fwid);
    out
}

fn firmware_get_by_index(index: u16) -> Payload
    requires { Fits distribution_rows (view (DistMsg.FirmwareGetByIndex index)) }
    ensures { result.items ≡ spelling distribution_rows (view (DistMsg.FirmwareGetByIndex index)) }
{
    let mut out = Payload::new();
    put_octets(&mut out, &[0x83, 0x24]);
    put_u16(&mut out, index);
    out
}

fn firmware_delete(fwid: &[u8]) -> Payload
    requires { Fits distribution_rows (view (DistMsg.FirmwareDelete fwid)) }
    ensures { result.items ≡ spelling distribution_rows (view (DistMsg.FirmwareDelete fwid.entry)) }
{
    let mut out = Payload::new();
    put_octets(&mut out, &[0x83, 0x25]);
    put_octets(&mut out, fwid);
    out
}

fn firmware_status(status: u8, count: u16, index: u16, fwid: Option<&[u8]>) -> Payload
    requires { Fits distribution_rows (view (DistMsg.FirmwareStatus status count index fwid)) }
    ensures { result.items ≡ spelling distribution_rows (view (DistMsg.FirmwareStatus status count index fwid.entry)) }
{
    let mut out = Payload::new();
    put_octets(&mut out, &[0x83, 0x27]);
    put_u8(&mut out, status);
    put_u16(&mut out, count);
    put_u16(&mut out, index);
    if let Some(fwid) = fwid {
        put_octets(&mut out, fwid);
    }
    out
}
