ghost use Rattle.std.specs.Prelude.{◌≡◌, ◌≤◌, ◌+◌, ◌↔◌, IsTrue, map, length};
ghost use Rattle.mu_model_wire.specs.Spelling.{Fits, EntryFits, EntriesFit, entry_spelling, entries_spelling};
ghost use Rattle.mu_model_wire.specs.Update.{update_rows, entry_fields};
ghost use Rattle.mu_updmsg.specs.View.{view, entry_shown};

use crate::message::{Entry, UpdMsg};
use arrayvec::ArrayVec;

/// Whether each field is in its range, those after `unless` are there in their cases alone, and the message has at
/// most 380 octets.
pub fn in_range(msg: &UpdMsg) -> bool
    ensures { IsTrue result ↔ Fits update_rows (view msg.now) }
{
    match msg {
        UpdMsg::InformationGet { first, limit } => information_get(*first, *limit),
        UpdMsg::InformationStatus {
            count,
            first,
            entries,
        } => information_status(*count, *first, entries),
        UpdMsg::MetadataCheck { index, metadata } => metadata_check(*index, metadata),
        UpdMsg::MetadataStatus {
            status,
            additional,
            index,
        } => metadata_status(*status, *additional, *index),
        UpdMsg::UpdateStart {
            ttl,
            base,
            id,
            index,
            metadata,
        } => update_start(*ttl, *base, *id, *index, metadata),
        UpdMsg::UpdateGet | UpdMsg::UpdateCancel | UpdMsg::UpdateApply => true,
        UpdMsg::UpdateStatus {
            status,
            phase,
            ttl,
            additional,
            base,
            id,
            index,
        } => update_status(*status, *phase, *ttl, *additional, *base, *id, *index),
    }
}

fn information_get(first: u8, limit: u8) -> bool
    ensures { IsTrue result ↔ Fits update_rows (view (UpdMsg.InformationGet first limit)) }
{
    true
}

fn information_status(count: u8, first: u8, entries: &ArrayVec<Entry, 94>) -> bool
    ensures { IsTrue result ↔ Fits update_rows (view (UpdMsg.InformationStatus count first entries.now)) }
{
    entries_in_range(entries.as_slice())
}

fn metadata_check(index: u8, metadata: &[u8]) -> bool
    ensures { IsTrue result ↔ Fits update_rows (view (UpdMsg.MetadataCheck index metadata.entry)) }
{
    metadata.len() <= 255
}

fn metadata_status(status: u8, additional: u8, index: u8) -> bool
    ensures { IsTrue result ↔ Fits update_rows (view (UpdMsg.MetadataStatus status additional index)) }
{
    status <= 7 && additional <= 31
}

fn update_start(ttl: u8, base: u16, id: u64, index: u8, metadata: &[u8]) -> bool
    ensures { IsTrue result ↔ Fits update_rows (view (UpdMsg.UpdateStart ttl base id index metadata.entry)) }
{
    metadata.len() <= 255
}

fn entries_in_range(entries: &[Entry]) -> bool
    ensures { IsTrue result ↔ (EntriesFit entry_fields (map entry_shown entries.now) × (length (entries_spelling entry_fields (map entry_shown entries.now)) ≤ 376)) }
{
    let mut room = 376;
    for entry in entries {
        if !entry_in_range(entry) || length_of(entry) > room {
            return false;
        }
        room -= length_of(entry);
    }
    true
}

fn entry_in_range(entry: &Entry) -> bool
    ensures { IsTrue result ↔ EntryFits entry_fields (entry_shown entry.now) }
{
    entry.id.len() >= 2 && entry.id.len() <= 108 && entry.uri.len() <= 255
}

fn length_of(entry: &Entry) -> usize
    requires { EntryFits entry_fields (entry_shown entry.now) }
    ensures { result ≡ length (entry_spelling entry_fields (entry_shown entry.now)) }
{
    2 + entry.id.len() + entry.uri.len()
}

fn update_status(
    status: u8,
    phase: u8,
    ttl: Option<u8>,
    additional: Option<u8>,
    base: Option<u16>,
    id: Option<u64>,
    index: Option<u8>,
) -> bool
    ensures { IsTrue result ↔ Fits update_rows (view (UpdMsg.UpdateStatus status phase ttl additional base id index)) }
{
    if status > 7 || phase > 6 {
        return false;
    }
    match (ttl, additional, base, id, index) {
        (None, None, None, None, None) => phase == 0,
        (Some(_), Some(additional), Some(_), Some(_), Some(_)) => phase >= 1 && additional <= 31,
        _ => false,
    }
}
