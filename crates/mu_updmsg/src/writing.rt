ghost use Rattle.std.specs.Prelude.{◌≡◌, ◌≤◌, ◌+◌, ◌++◌, [], ◌∷◌, map, length, Ok};
ghost use Rattle.mu_model_wire.specs.Reading.{message_at};
ghost use Rattle.mu_model_wire.specs.Spelling.{Fits, EntryFits, EntriesFit, entry_spelling, entries_spelling, spelling};
ghost use Rattle.mu_model_wire.specs.Update.{update_rows, entry_fields};
ghost use Rattle.arrayvec.specs.ArrayVec.{array_vec_len};
ghost use Rattle.mu_updmsg.specs.View.{view, entry_shown};

use crate::message::{Entry, UpdMsg};
use mu_codec::{Payload, put_octets, put_u8, put_u16, put_u64};
use mu_model_wire::laws::canonical_is_read;

/// The canonical octets of a message in range: its unused bits are 0.
pub fn write(msg: &UpdMsg) -> Payload
    requires { Fits update_rows (view msg.now) }
    ensures spelled { result.items ≡ spelling update_rows (view msg.now) }
    // Reading them gives the message back.
    ensures again { message_at update_rows result.items ≡ Ok (view msg.now) }
{
    canonical_is_read();
    spelled(msg)
}

fn spelled(msg: &UpdMsg) -> Payload
    requires { Fits update_rows (view msg.now) }
    ensures { result.items ≡ spelling update_rows (view msg.now) }
{
    match msg {
        UpdMsg::InformationGet { first, limit } => information_get(*first, *limit),
        UpdMsg::InformationStatus {
            count,
            first,
            entries,
        } => write_information_status(*count, *first, entries.as_slice()),
        UpdMsg::MetadataCheck { index, metadata } => metadata_check(*index, metadata),
        UpdMsg::MetadataStatus {
            status,
            additional,
            index,
        } => metadata_status(*status, *additional, *index),
        UpdMsg::UpdateGet => opcode_alone(0x0C),
        UpdMsg::UpdateStart {
            ttl,
            base,
            id,
            index,
            metadata,
        } => update_start(*ttl, *base, *id, *index, metadata),
        UpdMsg::UpdateCancel => opcode_alone(0x0E),
        UpdMsg::UpdateApply => opcode_alone(0x0F),
        UpdMsg::UpdateStatus {
            status,
            phase,
            ttl,
            additional,
            base,
            id,
            index,
        } => update_status(*status, *phase, *ttl, *additional, *base, *id, *index),
    }
}

fn opcode_alone(second: u8) -> Payload
    ensures { result.items ≡ 0x83 ∷ second ∷ [] }
{
    let mut out = Payload::new();
    put_octets(&mut out, &[0x83, second]);
    out
}

fn information_get(first: u8, limit: u8) -> Payload
    ensures { result.items ≡ spelling update_rows (view (UpdMsg.InformationGet first limit)) }
{
    let mut out = Payload::new();
    put_octets(&mut out, &[0x83, 0x08, first, limit]);
    out
}

/// The canonical octets of a Firmware Update Information Status whose entries are lent: a message holds room for 94 of them.
pub fn write_information_status(count: u8, first: u8, entries: &[Entry]) -> Payload
    requires fits { EntriesFit entry_fields (map entry_shown entries.now) }
    requires room { 4 + length (entries_spelling entry_fields (map entry_shown entries.now)) ≤ 380 }
    ensures { result.items ≡ spelling update_rows (view (UpdMsg.InformationStatus count first (record { items = entries.now }))) }
{
    let mut out = Payload::new();
    put_octets(&mut out, &[0x83, 0x09, count, first]);
    put_entries(&mut out, entries);
    out
}

fn put_entries(out: &mut Payload, entries: &[Entry])
    requires room { array_vec_len out.old + length (entries_spelling entry_fields (map entry_shown entries.now)) ≤ 380 }
    requires fits { EntriesFit entry_fields (map entry_shown entries.now) }
    ensures items { out.new.items ≡ out.old.items ++ entries_spelling entry_fields (map entry_shown entries.now) }
{
    for entry in entries {
        put_entry(out, *entry);
    }
}

fn put_entry(out: &mut Payload, entry: Entry)
    requires room { array_vec_len out.old + length (entry_spelling entry_fields (entry_shown entry)) ≤ 380 }
    requires fits { EntryFits entry_fields (entry_shown entry) }
    ensures { out.new.items ≡ out.old.items ++ entry_spelling entry_fields (entry_shown entry.entry) }
{
    put_u8(out, entry.id.len() as u8);
    put_octets(out, entry.id);
    put_u8(out, entry.uri.len() as u8);
    put_octets(out, entry.uri);
}

fn metadata_check(index: u8, metadata: &[u8]) -> Payload
    requires { length metadata.now ≤ 255 }
    ensures { result.items ≡ (0x83 ∷ 0x0A ∷ index ∷ []) ++ metadata.now }
{
    let mut out = Payload::new();
    put_octets(&mut out, &[0x83, 0x0A, index]);
    put_octets(&mut out, metadata);
    out
}

fn metadata_status(status: u8, additional: u8, index: u8) -> Payload
    requires status { status ≤ 7 }
    requires additional { additional ≤ 31 }
    ensures { result.items ≡ spelling update_rows (view (UpdMsg.MetadataStatus status additional index)) }
{
    let mut out = Payload::new();
    put_octets(&mut out, &[0x83, 0x0B, status + additional * 8, index]);
    out
}

fn update_start(ttl: u8, base: u16, id: u64, index: u8, metadata: &[u8]) -> Payload
    requires { length metadata.now ≤ 255 }
    ensures { result.items ≡ spelling update_rows (view (UpdMsg.UpdateStart ttl base id index metadata.entry)) }
{
    let mut out = Payload::new();
    put_octets(&mut out, &[0x83, 0x0D]);
    put_u8(&mut out, ttl);
    put_u16(&mut out, base);
    put_u64(&mut out, id);
    put_u8(&mut out, index);
    put_octets(&mut out, metadata);
    out
}

fn update_status(
    status: u8,
    phase: u8,
    ttl: Option<u8>,
    additional: Option<u8>,
    base: Option<u16>,
    id: Option<u64>,
    index: Option<u8>,
) -> Payload
    requires { Fits update_rows (view (UpdMsg.UpdateStatus status phase ttl additional base id index)) }
    ensures { result.items ≡ spelling update_rows (view (UpdMsg.UpdateStatus status phase ttl additional base id index)) }
{
    let mut out = Payload::new();
    put_octets(&mut out, &[0x83, 0x10, status + phase * 32]);
    if let (Some(ttl), Some(additional), Some(base), Some(id), Some(index)) = (
        ttl, additional, base, id, index,
    ) {
        put_u8(&mut out, ttl);
        put_u8(&mut out, additional);
        put_u16(&mut out, base);
        put_u64(&mut out, id);
        put_u8(&mut out, index);
    }
    out
}
