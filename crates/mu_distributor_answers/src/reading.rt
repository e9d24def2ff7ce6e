// What a message asks of a Firmware Distribution Server.
ghost use Rattle.std.specs.Prelude.{◌≡◌, IfSome, MatchOption};
ghost use Rattle.std.specs.Option.{option_map};
ghost use Rattle.mu_model_image.specs.Meta.{meta_from, IsMeta};
ghost use Rattle.mu_model_wire.specs.Reading.{message_at};
ghost use Rattle.mu_model_wire.specs.Distribution.{distribution_rows};
ghost use Rattle.mu_distmsg.specs.View.{view, InRange};
ghost use Rattle.mu_model_distributor.specs.Requests.{dist_request_of as asks};
ghost use Rattle.mu_model_distributor.specs.Sound.{DistRequestFits};
ghost use Rattle.mu_distributor_answers.specs.Messages.{dist_request_of, settings_of, asked_in};
ghost use Rattle.mu_distributor_answers.specs.Fits.{HasFirmwareId};

use crate::messages::DistRequest;
use mu_distmsg::{DistMsg, read};
use mu_distributor_rows::UploadStart;
use mu_model_distributor::Settings;
use mu_model_image::laws::metadata;

// Where a distribution goes to a label, it has no settings; without a group it goes to each receiver by itself.
fn settings_to(label: Option<[u8; 16]>, group: Option<u16>, settings: Settings) -> Option<Settings>
    ensures { result ≡ settings_of label group settings }
{
    match (label, group) {
        (Some(_), _) => None,
        (None, Some(group)) => Some(Settings { group, ..settings }),
        (None, None) => Some(Settings {
            group: 0,
            ..settings
        }),
    }
}

// Metadata that are read are in their ranges.
fn metadata_fits(octets: &[u8])
    ensures { MatchOption (meta_from octets.now) (Unit {0}) IsMeta }
{
    metadata();
}

/// What a message asks of a Firmware Distribution Server, if it takes such a message.
pub fn request_of<'a>(message: DistMsg<'a>) -> Option<DistRequest<'a>>
    requires { InRange message }
    ensures asks { option_map dist_request_of result ≡ asks (view message.entry) }
    ensures id { IfSome result (λ request. HasFirmwareId request) }
    ensures fits { IfSome result (λ request. DistRequestFits (dist_request_of request)) }
{
    match message {
        DistMsg::ReceiversAdd { entries } => Some(DistRequest::ReceiversAdd { entries }),
        DistMsg::ReceiversDeleteAll => Some(DistRequest::ReceiversDeleteAll),
        DistMsg::ReceiversGet { first, limit } => Some(DistRequest::ReceiversGet { first, limit }),
        DistMsg::CapabilitiesGet => Some(DistRequest::CapabilitiesGet),
        DistMsg::DistributionGet => Some(DistRequest::DistributionGet),
        DistMsg::DistributionStart {
            appkey,
            ttl,
            base,
            mode,
            policy,
            image,
            label,
            group,
        } => Some(DistRequest::DistributionStart {
            settings: settings_to(
                label,
                group,
                Settings {
                    appkey,
                    ttl,
                    base,
                    mode,
                    policy,
                    image,
                    group: 0,
                },
            ),
        }),
        DistMsg::DistributionSuspend => Some(DistRequest::DistributionSuspend),
        DistMsg::DistributionCancel => Some(DistRequest::DistributionCancel),
        DistMsg::DistributionApply => Some(DistRequest::DistributionApply),
        DistMsg::UploadGet => Some(DistRequest::UploadGet),
        DistMsg::UploadStart {
            ttl,
            base,
            id,
            size,
            metadata,
            fwid,
        } => {
            metadata_fits(metadata);
            Some(DistRequest::StartUpload(UploadStart {
                ttl,
                base,
                id,
                size,
                metadata,
                fwid,
            }))
        }
        DistMsg::UploadStartOob { .. } => Some(DistRequest::StartUploadOob),
        DistMsg::UploadCancel => Some(DistRequest::UploadCancel),
        DistMsg::FirmwareGet { fwid } => Some(DistRequest::FirmwareGet { fwid }),
        DistMsg::FirmwareGetByIndex { index } => Some(DistRequest::FirmwareGetByIndex { index }),
        DistMsg::FirmwareDelete { fwid } => Some(DistRequest::FirmwareDelete { fwid }),
        DistMsg::FirmwareDeleteAll => Some(DistRequest::FirmwareDeleteAll),
        _ => None,
    }
}

/// What the octets of a payload ask of a Firmware Distribution Server, if they spell such a message.
pub fn request_at<'a>(payload: &'a [u8]) -> Option<DistRequest<'a>>
    ensures asks { option_map dist_request_of result ≡ asked_in (message_at distribution_rows payload.now) }
    ensures id { IfSome result (λ request. HasFirmwareId request) }
    ensures fits { IfSome result (λ request. DistRequestFits (dist_request_of request)) }
{
    match read(payload) {
        Ok(message) => request_of(message),
        Err(_) => None,
    }
}
