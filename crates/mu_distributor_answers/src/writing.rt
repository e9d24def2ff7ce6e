// The octets of what a Firmware Distribution Server answers.
ghost use Rattle.std.specs.Prelude.{◌≡◌, ◌≤◌, ◌<◌, ◌*◌, ◌^◌, map, length};
ghost use Rattle.std.specs.Option.{option_map};
ghost use Rattle.mu_model_wire.specs.Spelling.{Fits, spelling};
ghost use Rattle.mu_model_wire.specs.Distribution.{distribution_rows};
ghost use Rattle.mu_distmsg.specs.View.{view, IsEven};
ghost use Rattle.mu_model_distributor.specs.Replies.{ReceiversStatus, ReceiversList, CapabilitiesStatus, DistributionStatus, UploadStatus, FirmwareStatus};
ghost use Rattle.mu_model_distributor.specs.DistMessages.{ByDistribution, sent_octets};
ghost use Rattle.mu_distributor_rows.specs.Receivers.{row_here};
ghost use Rattle.mu_distributor_rows.specs.Replies.{dist_reply_of, shown_upload_of, DistReplyFits, AreListed, ShowsSettings, ShowsUpload, IsIdThere};

use arrayvec::ArrayVec;
use mu_codec::Payload;
use mu_distmsg::{DistMsg, ReceiverRow, write};
use mu_distributor_rows::{DistAnswer, DistReply, ShownUpload};
use mu_image::Fwid;
use mu_model_distributor::Settings;

// The octets of a message in range.
#[tactic(auto, using(crate::proofs::Written::in_range))]
fn written(message: &DistMsg) -> Payload
    requires fits { Fits distribution_rows (view message.now) }
    requires even { IsEven message.now }
    ensures { result.items ≡ spelling distribution_rows (view message.now) }
{
    write(message)
}

fn receivers_status(status: u8, count: u16) -> Payload
    requires { status ≤ 13 }
    ensures { result.items ≡ sent_octets (ByDistribution (ReceiversStatus status count)) }
{
    written(&DistMsg::ReceiversStatus { status, count })
}

#[tactic(auto, using(crate::proofs::Written::rows_even))]
fn receivers_list(count: u16, first: u16, entries: ArrayVec<ReceiverRow, 74>) -> Payload
    requires { AreListed entries.items }
    ensures { result.items ≡ sent_octets (ByDistribution (ReceiversList count first (map row_here entries.items))) }
{
    let few = entries.as_slice().len() <= 74;
    prove!(few);
    written(&DistMsg::ReceiversList {
        count,
        first,
        entries,
    })
}

fn capabilities(capacity: u32, remaining: u32) -> Payload
    requires { 4 * capacity < 2 ^ 32 }
    ensures { result.items ≡ sent_octets (ByDistribution (CapabilitiesStatus capacity remaining)) }
{
    written(&DistMsg::CapabilitiesStatus {
        receivers: 128,
        images: 4,
        max_size: capacity,
        space: 4 * capacity,
        remaining,
        oob: 0,
        schemes: &[],
    })
}

fn distribution(status: u8, phase: u8, settings: Option<Settings>) -> Payload
    requires known { status ≤ 13 }
    requires shows { ShowsSettings phase settings }
    ensures { result.items ≡ sent_octets (ByDistribution (DistributionStatus status phase settings)) }
{
    match settings {
        None => written(&DistMsg::DistributionStatus {
            status,
            phase,
            group: None,
            appkey: None,
            ttl: None,
            base: None,
            mode: None,
            policy: None,
            image: None,
        }),
        Some(settings) => written(&DistMsg::DistributionStatus {
            status,
            phase,
            group: Some(settings.group),
            appkey: Some(settings.appkey),
            ttl: Some(settings.ttl),
            base: Some(settings.base),
            mode: Some(settings.mode),
            policy: Some(settings.policy),
            image: Some(settings.image),
        }),
    }
}

fn upload(status: u8, phase: u8, upload: Option<ShownUpload>) -> Payload
    requires known { status ≤ 13 }
    requires shows { ShowsUpload phase upload }
    ensures { result.items ≡ sent_octets (ByDistribution (UploadStatus status phase (option_map shown_upload_of upload))) }
{
    match upload {
        None => written(&DistMsg::UploadStatus {
            status,
            phase,
            progress: None,
            kind: None,
            fwid: None,
        }),
        Some(upload) => written(&DistMsg::UploadStatus {
            status,
            phase,
            progress: Some(upload.progress),
            kind: Some(0),
            fwid: Some(upload.fwid.as_slice()),
        }),
    }
}

fn firmware(status: u8, count: u16, index: u16, fwid: Option<Fwid>) -> Payload
    requires known { status ≤ 13 }
    requires shows { IsIdThere (option_map (λ id. id.items) fwid) }
    ensures { result.items ≡ sent_octets (ByDistribution (FirmwareStatus status count index (option_map (λ id. id.items) fwid))) }
{
    match fwid {
        None => written(&DistMsg::FirmwareStatus {
            status,
            count,
            index,
            fwid: None,
        }),
        Some(fwid) => written(&DistMsg::FirmwareStatus {
            status,
            count,
            index,
            fwid: Some(fwid.as_slice()),
        }),
    }
}

// The octets of an answer whose fields are in their ranges.
fn reply_octets(reply: DistReply) -> Payload
    requires { DistReplyFits reply }
    ensures { result.items ≡ sent_octets (ByDistribution (dist_reply_of reply)) }
{
    match reply {
        DistReply::ReceiversStatus { status, count } => receivers_status(status, count),
        DistReply::ReceiversList { count, first, rows } => receivers_list(count, first, rows),
        DistReply::CapabilitiesStatus {
            capacity,
            remaining,
        } => capabilities(capacity, remaining),
        DistReply::DistributionStatus {
            status,
            phase,
            settings,
        } => distribution(status, phase, settings),
        DistReply::UploadStatus {
            status,
            phase,
            upload: shown,
        } => upload(status, phase, shown),
        DistReply::FirmwareStatus {
            status,
            count,
            index,
            fwid,
        } => firmware(status, count, index, fwid),
    }
}

/// The octets of an answer.
pub fn octets_of(answer: DistAnswer) -> Payload
    ensures { result.items ≡ sent_octets (ByDistribution answer) }
{
    reply_octets(answer.into_reply())
}
