ghost use Rattle.mu_updmsg.specs.View.{view};
ghost use Rattle.mu_shown.specs.Lines.{shown_line};
ghost use Rattle.mu_shown.specs.Seen.{Shows};
ghost use Rattle.mu_shown.specs.Written.{Writes};

use crate::fields::{Fields, number, number_there, octets, of_octet, of_two};
use crate::lines::Line;
use crate::lists::List;
use crate::names::Name;
use crate::writing::{put_bare, put_line};
use arrayvec::ArrayVec;
use mu_outside::{Failed, Sink};
use mu_updmsg::{Entry, UpdMsg};

/// Writes the line that shows a message of the Firmware Update model.
pub fn show_update<K: Sink>(msg: &UpdMsg, sink: &mut K) -> Result<(), Failed>
    ensures { Writes (K.written sink.old) (K.written sink.new) (K.faults sink.old) (K.faults sink.new) result (shown_line (view msg.now)) }
{
    match msg {
        UpdMsg::InformationGet { first, limit } => put_line(sink, &information_get(*first, *limit)),
        UpdMsg::InformationStatus {
            count,
            first,
            entries,
        } => put_line(sink, &information_status(*count, *first, entries)),
        UpdMsg::MetadataCheck { index, metadata } => put_line(
            sink,
            &metadata_check(*index, metadata),
        ),
        UpdMsg::MetadataStatus {
            status,
            additional,
            index,
        } => put_line(sink, &metadata_status(*status, *additional, *index)),
        UpdMsg::UpdateGet => put_bare(sink, b"update-get"),
        UpdMsg::UpdateStart {
            ttl,
            base,
            id,
            index,
            metadata,
        } => put_line(sink, &update_start(*ttl, *base, *id, *index, metadata)),
        UpdMsg::UpdateCancel => put_bare(sink, b"update-cancel"),
        UpdMsg::UpdateApply => put_bare(sink, b"update-apply"),
        UpdMsg::UpdateStatus {
            status,
            phase,
            ttl,
            additional,
            base,
            id,
            index,
        } => put_line(
            sink,
            &update_status(*status, *phase, *ttl, *additional, *base, *id, *index),
        ),
    }
}

fn information_get<'m, 'a>(first: u8, limit: u8) -> Line<'m, 'a>
    ensures { Shows result (view (UpdMsg.InformationGet first limit)) }
{
    let mut fields = Fields::new();
    number(&mut fields, Name::First, first as u64);
    number(&mut fields, Name::Limit, limit as u64);
    Line {
        name: b"information-get",
        fields,
        list: List::Nothing,
    }
}

fn information_status<'m, 'a>(
    count: u8,
    first: u8,
    entries: &'m ArrayVec<Entry<'a>, 94>,
) -> Line<'m, 'a>
    ensures { Shows result (view (UpdMsg.InformationStatus count first entries.now)) }
{
    let mut fields = Fields::new();
    number(&mut fields, Name::Count, count as u64);
    number(&mut fields, Name::First, first as u64);
    Line {
        name: b"information-status",
        fields,
        list: List::Images(entries.as_slice()),
    }
}

fn metadata_check<'m, 'a>(index: u8, metadata: &'m [u8]) -> Line<'m, 'a>
    ensures { Shows result (view (UpdMsg.MetadataCheck index metadata.entry)) }
{
    let mut fields = Fields::new();
    number(&mut fields, Name::Index, index as u64);
    octets(&mut fields, Name::Metadata, metadata);
    Line {
        name: b"metadata-check",
        fields,
        list: List::Nothing,
    }
}

fn metadata_status<'m, 'a>(status: u8, additional: u8, index: u8) -> Line<'m, 'a>
    ensures { Shows result (view (UpdMsg.MetadataStatus status additional index)) }
{
    let mut fields = Fields::new();
    number(&mut fields, Name::Status, status as u64);
    number(&mut fields, Name::Additional, additional as u64);
    number(&mut fields, Name::Index, index as u64);
    Line {
        name: b"metadata-status",
        fields,
        list: List::Nothing,
    }
}

fn update_start<'m, 'a>(ttl: u8, base: u16, id: u64, index: u8, metadata: &'m [u8]) -> Line<'m, 'a>
    ensures { Shows result (view (UpdMsg.UpdateStart ttl base id index metadata.entry)) }
{
    let mut fields = Fields::new();
    number(&mut fields, Name::Ttl, ttl as u64);
    number(&mut fields, Name::Base, base as u64);
    number(&mut fields, Name::Id, id);
    number(&mut fields, Name::Index, index as u64);
    octets(&mut fields, Name::Metadata, metadata);
    Line {
        name: b"update-start",
        fields,
        list: List::Nothing,
    }
}

fn update_status<'m, 'a>(
    status: u8,
    phase: u8,
    ttl: Option<u8>,
    additional: Option<u8>,
    base: Option<u16>,
    id: Option<u64>,
    index: Option<u8>,
) -> Line<'m, 'a>
    ensures { Shows result (view (UpdMsg.UpdateStatus status phase ttl additional base id index)) }
{
    let mut fields = Fields::new();
    number(&mut fields, Name::Status, status as u64);
    number(&mut fields, Name::Phase, phase as u64);
    number_there(&mut fields, Name::Ttl, of_octet(ttl));
    number_there(&mut fields, Name::Additional, of_octet(additional));
    number_there(&mut fields, Name::Base, of_two(base));
    number_there(&mut fields, Name::Id, id);
    number_there(&mut fields, Name::Index, of_octet(index));
    Line {
        name: b"update-status",
        fields,
        list: List::Nothing,
    }
}
