ghost use Rattle.mu_distmsg.specs.View.{view};
ghost use Rattle.mu_shown.specs.Lines.{shown_line};
ghost use Rattle.mu_shown.specs.Seen.{Shows};
ghost use Rattle.mu_shown.specs.Written.{Writes};

use crate::fields::{
    Fields, label_there, number, number_there, octets, octets_there, of_octet, of_two,
};
use crate::lines::Line;
use crate::lists::List;
use crate::names::Name;
use crate::writing::{put_bare, put_line};
use arrayvec::ArrayVec;
use mu_distmsg::{DistMsg, ReceiverRow};
use mu_outside::{Failed, Sink};

/// Writes the line that shows a message of the Firmware Distribution model.
pub fn show_distribution<K: Sink>(msg: &DistMsg, sink: &mut K) -> Result<(), Failed>
    ensures { Writes (K.written sink.old) (K.written sink.new) (K.faults sink.old) (K.faults sink.new) result (shown_line (view msg.now)) }
{
    match msg {
        DistMsg::ReceiversAdd { entries } => put_line(sink, &receivers_add(entries)),
        DistMsg::ReceiversDeleteAll => put_bare(sink, b"receivers-delete-all"),
        DistMsg::ReceiversStatus { status, count } => put_line(
            sink,
            &receivers_status(*status, *count),
        ),
        DistMsg::ReceiversGet { first, limit } => put_line(sink, &receivers_get(*first, *limit)),
        DistMsg::ReceiversList {
            count,
            first,
            entries,
        } => put_line(sink, &receivers_list(*count, *first, entries)),
        DistMsg::CapabilitiesGet => put_bare(sink, b"capabilities-get"),
        DistMsg::CapabilitiesStatus {
            receivers,
            images,
            max_size,
            space,
            remaining,
            oob,
            schemes,
        } => put_line(
            sink,
            &capabilities_status(
                *receivers, *images, *max_size, *space, *remaining, *oob, schemes,
            ),
        ),
        DistMsg::DistributionGet => put_bare(sink, b"distribution-get"),
        DistMsg::DistributionStart {
            appkey,
            ttl,
            base,
            mode,
            policy,
            image,
            label,
            group,
        } => put_line(
            sink,
            &distribution_start(*appkey, *ttl, *base, *mode, *policy, *image, label, *group),
        ),
        DistMsg::DistributionSuspend => put_bare(sink, b"distribution-suspend"),
        DistMsg::DistributionCancel => put_bare(sink, b"distribution-cancel"),
        DistMsg::DistributionApply => put_bare(sink, b"distribution-apply"),
        DistMsg::DistributionStatus {
            status,
            phase,
            group,
            appkey,
            ttl,
            base,
            mode,
            policy,
            image,
        } => put_line(
            sink,
            &distribution_status(
                *status, *phase, *group, *appkey, *ttl, *base, *mode, *policy, *image,
            ),
        ),
        DistMsg::UploadGet => put_bare(sink, b"upload-get"),
        DistMsg::UploadStart {
            ttl,
            base,
            id,
            size,
            metadata,
            fwid,
        } => put_line(sink, &upload_start(*ttl, *base, *id, *size, metadata, fwid)),
        DistMsg::UploadStartOob { uri, fwid } => put_line(sink, &upload_start_oob(uri, fwid)),
        DistMsg::UploadCancel => put_bare(sink, b"upload-cancel"),
        DistMsg::UploadStatus {
            status,
            phase,
            progress,
            kind,
            fwid,
        } => put_line(
            sink,
            &upload_status(*status, *phase, *progress, *kind, *fwid),
        ),
        DistMsg::FirmwareGet { fwid } => put_line(sink, &firmware_get(fwid)),
        DistMsg::FirmwareGetByIndex { index } => put_line(sink, &firmware_get_by_index(*index)),
        DistMsg::FirmwareDelete { fwid } => put_line(sink, &firmware_delete(fwid)),
        DistMsg::FirmwareDeleteAll => put_bare(sink, b"firmware-delete-all"),
        DistMsg::FirmwareStatus {
            status,
            count,
            index,
            fwid,
        } => put_line(sink, &firmware_status(*status, *count, *index, *fwid)),
    }
}

fn receivers_add<'m, 'a>(entries: &'m ArrayVec<(u16, u8), 126>) -> Line<'m, 'a>
    ensures { Shows result (view (DistMsg.ReceiversAdd entries.now)) }
{
    Line {
        name: b"receivers-add",
        fields: Fields::new(),
        list: List::Receivers(entries.as_slice()),
    }
}

fn receivers_status<'m, 'a>(status: u8, count: u16) -> Line<'m, 'a>
    ensures { Shows result (view (DistMsg.ReceiversStatus status count)) }
{
    let mut fields = Fields::new();
    number(&mut fields, Name::Status, status as u64);
    number(&mut fields, Name::Count, count as u64);
    Line {
        name: b"receivers-status",
        fields,
        list: List::Nothing,
    }
}

fn receivers_get<'m, 'a>(first: u16, limit: u16) -> Line<'m, 'a>
    ensures { Shows result (view (DistMsg.ReceiversGet first limit)) }
{
    let mut fields = Fields::new();
    number(&mut fields, Name::First, first as u64);
    number(&mut fields, Name::Limit, limit as u64);
    Line {
        name: b"receivers-get",
        fields,
        list: List::Nothing,
    }
}

fn receivers_list<'m, 'a>(
    count: u16,
    first: u16,
    entries: &'m ArrayVec<ReceiverRow, 74>,
) -> Line<'m, 'a>
    ensures { Shows result (view (DistMsg.ReceiversList count first entries.now)) }
{
    let mut fields = Fields::new();
    number(&mut fields, Name::Count, count as u64);
    number(&mut fields, Name::First, first as u64);
    Line {
        name: b"receivers-list",
        fields,
        list: List::Rows(entries.as_slice()),
    }
}

fn capabilities_status<'m, 'a>(
    receivers: u16,
    images: u16,
    max_size: u32,
    space: u32,
    remaining: u32,
    oob: u8,
    schemes: &'m [u8],
) -> Line<'m, 'a>
    ensures { Shows result (view (DistMsg.CapabilitiesStatus receivers images max_size space remaining oob schemes.entry)) }
{
    let mut fields = Fields::new();
    number(&mut fields, Name::Receivers, receivers as u64);
    number(&mut fields, Name::Images, images as u64);
    number(&mut fields, Name::MaxSize, max_size as u64);
    number(&mut fields, Name::Space, space as u64);
    number(&mut fields, Name::Remaining, remaining as u64);
    number(&mut fields, Name::Oob, oob as u64);
    octets(&mut fields, Name::Schemes, schemes);
    Line {
        name: b"capabilities-status",
        fields,
        list: List::Nothing,
    }
}

fn distribution_start<'m, 'a>(
    appkey: u16,
    ttl: u8,
    base: u16,
    mode: u8,
    policy: u8,
    image: u16,
    label: &'m Option<[u8; 16]>,
    group: Option<u16>,
) -> Line<'m, 'a>
    ensures { Shows result (view (DistMsg.DistributionStart appkey ttl base mode policy image label.now group)) }
{
    let mut fields = Fields::new();
    number(&mut fields, Name::Appkey, appkey as u64);
    number(&mut fields, Name::Ttl, ttl as u64);
    number(&mut fields, Name::Base, base as u64);
    number(&mut fields, Name::Mode, mode as u64);
    number(&mut fields, Name::Policy, policy as u64);
    number(&mut fields, Name::Image, image as u64);
    label_there(&mut fields, label);
    number_there(&mut fields, Name::Group, of_two(group));
    Line {
        name: b"distribution-start",
        fields,
        list: List::Nothing,
    }
}

fn distribution_status<'m, 'a>(
    status: u8,
    phase: u8,
    group: Option<u16>,
    appkey: Option<u16>,
    ttl: Option<u8>,
    base: Option<u16>,
    mode: Option<u8>,
    policy: Option<u8>,
    image: Option<u16>,
) -> Line<'m, 'a>
    ensures { Shows result (view (DistMsg.DistributionStatus status phase group appkey ttl base mode policy image)) }
{
    let mut fields = Fields::new();
    number(&mut fields, Name::Status, status as u64);
    number(&mut fields, Name::Phase, phase as u64);
    number_there(&mut fields, Name::Group, of_two(group));
    number_there(&mut fields, Name::Appkey, of_two(appkey));
    number_there(&mut fields, Name::Ttl, of_octet(ttl));
    number_there(&mut fields, Name::Base, of_two(base));
    number_there(&mut fields, Name::Mode, of_octet(mode));
    number_there(&mut fields, Name::Policy, of_octet(policy));
    number_there(&mut fields, Name::Image, of_two(image));
    Line {
        name: b"distribution-status",
        fields,
        list: List::Nothing,
    }
}

fn upload_start<'m, 'a>(
    ttl: u8,
    base: u16,
    id: u64,
    size: u32,
    metadata: &'m [u8],
    fwid: &'m [u8],
) -> Line<'m, 'a>
    ensures { Shows result (view (DistMsg.UploadStart ttl base id size metadata.entry fwid.entry)) }
{
    let mut fields = Fields::new();
    number(&mut fields, Name::Ttl, ttl as u64);
    number(&mut fields, Name::Base, base as u64);
    number(&mut fields, Name::Id, id);
    number(&mut fields, Name::Size, size as u64);
    octets(&mut fields, Name::Metadata, metadata);
    octets(&mut fields, Name::Fwid, fwid);
    Line {
        name: b"upload-start",
        fields,
        list: List::Nothing,
    }
}

fn upload_start_oob<'m, 'a>(uri: &'m [u8], fwid: &'m [u8]) -> Line<'m, 'a>
    ensures { Shows result (view (DistMsg.UploadStartOob uri.entry fwid.entry)) }
{
    let mut fields = Fields::new();
    octets(&mut fields, Name::Uri, uri);
    octets(&mut fields, Name::Fwid, fwid);
    Line {
        name: b"upload-start-oob",
        fields,
        list: List::Nothing,
    }
}

fn upload_status<'m, 'a>(
    status: u8,
    phase: u8,
    progress: Option<u8>,
    kind: Option<u8>,
    fwid: Option<&'m [u8]>,
) -> Line<'m, 'a>
    ensures { Shows result (view (DistMsg.UploadStatus status phase progress kind fwid.entry)) }
{
    let mut fields = Fields::new();
    number(&mut fields, Name::Status, status as u64);
    number(&mut fields, Name::Phase, phase as u64);
    number_there(&mut fields, Name::Progress, of_octet(progress));
    number_there(&mut fields, Name::Kind, of_octet(kind));
    octets_there(&mut fields, Name::Fwid, fwid);
    Line {
        name: b"upload-status",
        fields,
        list: List::Nothing,
    }
}

fn firmware_get<'m, 'a>(fwid: &'m [u8]) -> Line<'m, 'a>
    ensures { Shows result (view (DistMsg.FirmwareGet fwid.entry)) }
{
    let mut fields = Fields::new();
    octets(&mut fields, Name::Fwid, fwid);
    Line {
        name: b"firmware-get",
        fields,
        list: List::Nothing,
    }
}

fn firmware_get_by_index<'m, 'a>(index: u16) -> Line<'m, 'a>
    ensures { Shows result (view (DistMsg.FirmwareGetByIndex index)) }
{
    let mut fields = Fields::new();
    number(&mut fields, Name::Index, index as u64);
    Line {
        name: b"firmware-get-by-index",
        fields,
        list: List::Nothing,
    }
}

fn firmware_delete<'m, 'a>(fwid: &'m [u8]) -> Line<'m, 'a>
    ensures { Shows result (view (DistMsg.FirmwareDelete fwid.entry)) }
{
    let mut fields = Fields::new();
    octets(&mut fields, Name::Fwid, fwid);
    Line {
        name: b"firmware-delete",
        fields,
        list: List::Nothing,
    }
}

fn firmware_status<'m, 'a>(
    status: u8,
    count: u16,
    index: u16,
    fwid: Option<&'m [u8]>,
) -> Line<'m, 'a>
    ensures { Shows result (view (DistMsg.FirmwareStatus status count index fwid.entry)) }
{
    let mut fields = Fields::new();
    number(&mut fields, Name::Status, status as u64);
    number(&mut fields, Name::Count, count as u64);
    number(&mut fields, Name::Index, index as u64);
    octets_there(&mut fields, Name::Fwid, fwid);
    Line {
        name: b"firmware-status",
        fields,
        list: List::Nothing,
    }
}
